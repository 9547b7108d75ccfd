// Slots of rows and of tables, as their bytes hold them.
ghost use Rattle.std.specs.Prelude.{◌≡◌, ◌≤◌, length};
ghost use Rattle.nb_host.specs.Names.{same_name};
ghost use Rattle.nb_model.specs.Chains.{length_in, key_of, text_in, table_of, row_slot, table_slot};

use crate::look::SLOT;
use nb_fields::layouts::{catalogue, row};
use nb_model::TableName;
use nb_walk::table_name;

/// The key in the slot of a row.
pub(crate) fn key_of(slot: &[u8]) -> u64
    requires { length slot.now ≡ 256 }
    ensures { result ≡ key_of slot.now }
{
    row::Key::get(slot)
}

/// The text in the slot of a row.
pub(crate) fn text_of(slot: &[u8]) -> &[u8]
    requires size { length slot.now ≡ 256 }
    requires fits { length_in slot.now ≤ 200 }
    ensures { result.now ≡ text_in slot.now }
{
    let length = row::TextLength::get(slot) as usize;
    &slot[row::TEXT_AT..row::TEXT_AT + length]
}

/// Whether the slot of a table holds that name.
pub(crate) fn is_named(slot: &[u8], name: &TableName) -> bool
    requires size { length slot.now ≡ 256 }
    requires fits { length_in slot.now ≤ 30 }
    ensures { result ≡ same_name (table_of slot.now) name.now }
{
    table_name(slot) == name.as_str().as_bytes()
}

/// Writes a row into a slot.
fn fill_row(slot: &mut [u8], key: u64, text: &[u8])
    requires size { length slot.old ≡ 256 }
    requires text { length text.now ≤ 200 }
    ensures { slot.new ≡ row_slot key text.now }
{
    slot.fill(0);
    row::Used::put(slot, 1);
    row::TextLength::put(slot, text.len() as u64);
    row::Key::put(slot, key);
    slot[row::TEXT_AT..row::TEXT_AT + text.len()].copy_from_slice(text);
}

/// Writes a table's name and its first page into a slot.
fn fill_table(slot: &mut [u8], table: &TableName, first: u32)
    requires { length slot.old ≡ 256 }
    ensures { slot.new ≡ table_slot table.now first }
{
    let name = table.as_str().as_bytes();
    slot.fill(0);
    catalogue::Used::put(slot, 1);
    catalogue::NameLength::put(slot, name.len() as u64);
    catalogue::FirstPage::put(slot, u64::from(first));
    slot[catalogue::NAME_AT..catalogue::NAME_AT + name.len()].copy_from_slice(name);
}

/// The slot of a row, of a text of at most 200 bytes.
pub(crate) fn row_bytes(key: u64, text: &[u8]) -> [u8; SLOT]
    requires { length text.now ≤ 200 }
    ensures { result ≡ row_slot key text.now }
{
    let mut slot = [0; SLOT];
    fill_row(&mut slot, key, text);
    slot
}

/// The slot of a table whose chain begins with page `first`.
pub(crate) fn table_bytes(table: &TableName, first: u32) -> [u8; SLOT]
    ensures { result ≡ table_slot table.now first }
{
    let mut slot = [0; SLOT];
    fill_table(&mut slot, table, first);
    slot
}
