// The rows of the backup history, as its slots hold them.
ghost use Rattle.std.specs.Prelude.{◌≡◌, ◌+◌, ◌*◌, ◌≤◌, ◌&&◌, nat_le, length, is_some, IfSome};
ghost use Rattle.nb_fields.specs.Bytes.{with_part};
ghost use Rattle.nb_host.specs.Names.{is_name};
ghost use Rattle.nb_model.specs.Chains.{length_in, file_in, backup_slot};
ghost use Rattle.nb_engine.specs.History.{row_in, meets};

use nb_fields::layouts::{data, history};
use nb_host::Name;
use nb_walk::backup_file;

/// A backup that was closed, as the history has it.
#[derive(Drop)]
pub struct HistoryRow {
    /// When it was closed, in seconds since the start of 1970.
    pub time: u64,
    pub level: u8,
    pub guid: [u8; 16],
    pub scn: u32,
    /// The name of its file.
    pub name: Name,
}

/// Which row is looked for.
#[derive(Drop)]
pub(crate) enum Wanted {
    Level(u8),
    Guid([u8; 16]),
    Nothing,
}

impl Wanted {
    /// Whether the row is one of those.
    pub(crate) fn is_met_by(&self, row: &HistoryRow) -> bool
        ensures { result ≡ meets self.now row.now }
    {
        match self {
            Wanted::Level(level) => row.level == *level,
            Wanted::Guid(guid) => row.guid == *guid,
            Wanted::Nothing => false,
        }
    }
}

/// The row in a used slot of the history, and none where its name is of no form.
pub(crate) fn read_row(slot: &[u8]) -> Option<HistoryRow>
    requires { length slot.now ≡ 256 }
    ensures exact { is_some result ≡ (nat_le (length_in slot.now) 100 && is_name (file_in slot.now)) }
    ensures row { IfSome result (λ row. row ≡ row_in slot.now) }
{
    let name = backup_file(slot)?;
    let level = history::Level::get(slot);
    let scn = history::Scn::get(slot);
    let time = history::Time::get(slot);
    let guid = history::Guid::get(slot);
    Some(HistoryRow {
        time,
        level: level as u8,
        guid,
        scn: scn as u32,
        name,
    })
}

/// Writes a row into a slot.
fn put_row(slot: &mut [u8], row: &HistoryRow)
    requires { length slot.old ≡ 256 }
    ensures { slot.new ≡ backup_slot row.now.level row.now.scn row.now.time row.now.guid row.now.name }
{
    let name = row.name.as_str().as_bytes();
    slot.fill(0);
    history::Used::put(slot, 1);
    history::Level::put(slot, u64::from(row.level));
    history::NameLength::put(slot, name.len() as u64);
    history::Scn::put(slot, u64::from(row.scn));
    history::Time::put(slot, row.time);
    history::Guid::put(slot, &row.guid);
    slot[history::NAME_AT..history::NAME_AT + name.len()].copy_from_slice(name);
}

/// Writes a row into slot `number` of a page.
pub(crate) fn put_slot(page: &mut [u8], number: u32, row: &HistoryRow)
    requires { 288 + 256 * number ≤ length page.old }
    ensures { page.new ≡ with_part (32 + 256 * number) (backup_slot row.now.level row.now.scn row.now.time row.now.guid row.now.name) page.old }
{
    let from = data::SLOTS_AT + data::SLOT * number as usize;
    put_row(&mut page[from..from + data::SLOT], row);
}
