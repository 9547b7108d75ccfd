// The slots of a data page, as its bytes hold them.
ghost use Rattle.std.specs.Prelude.{◌≡◌, ◌+◌, ◌-◌, ◌*◌, ◌/◌, ◌≤◌, ◌&&◌, IsTrue, nat_le, slice_index, length, is_some, IfSome};
ghost use Rattle.nb_fields.specs.Bytes.{part};
ghost use Rattle.nb_fields.specs.Places.{is_page_size};
ghost use Rattle.nb_host.specs.Names.{is_name};
ghost use Rattle.nb_model.specs.TableNames.{is_table_name};
ghost use Rattle.nb_model.specs.Chains.{length_in, table_of, file_in, first_in};

use nb_fields::layouts::{catalogue, data, history, row};
use nb_host::Name;
use nb_model::TableName;

/// How many slots a page has: as many as there is room for after its first 32 bytes.
#[tactic(auto, using(nb_fields::proofs::SizeLaws::size_facts))]
pub fn slot_count(page: &[u8]) -> u32
    requires { IsTrue (is_page_size (length page.now)) }
    ensures { result ≡ (length page.now - 32) / 256 }
{
    ((page.len() - data::SLOTS_AT) / data::SLOT) as u32
}

/// Slot `slot` of a page, from 0: 256 bytes.
pub fn slot_at(page: &[u8], slot: u32) -> &[u8]
    requires { 288 + 256 * slot ≤ length page.now }
    ensures bytes { result.now ≡ part (32 + 256 * slot) 256 page.now }
    ensures size { length result.now ≡ 256 }
{
    let from = data::SLOTS_AT + data::SLOT * slot as usize;
    &page[from..from + data::SLOT]
}

/// The first byte of a slot: 1 where it is used, 0 where it is free.
pub fn use_of(slot: &[u8]) -> u64
    requires { length slot.now ≡ 256 }
    ensures { result ≡ slice_index slot.now 0 }
{
    row::Used::get(slot)
}

/// The first page of the table in a slot of the catalogue.
pub fn first_page(slot: &[u8]) -> u32
    requires { length slot.now ≡ 256 }
    ensures { result ≡ first_in slot.now }
{
    catalogue::FirstPage::get(slot) as u32
}

/// The name in the slot of a table, of at most 30 bytes.
pub fn table_name(slot: &[u8]) -> &[u8]
    requires size { length slot.now ≡ 256 }
    requires fits { length_in slot.now ≤ 30 }
    ensures { result.now ≡ table_of slot.now }
{
    let length = catalogue::NameLength::get(slot) as usize;
    &slot[catalogue::NAME_AT..catalogue::NAME_AT + length]
}

/// The name of the file in the slot of a backup, and none where that is of no form.
pub fn backup_file(slot: &[u8]) -> Option<Name>
    requires { length slot.now ≡ 256 }
    ensures exact { is_some result ≡ (nat_le (length_in slot.now) 100 && is_name (file_in slot.now)) }
    ensures same { IfSome result (λ name. name ≡ file_in slot.now) }
{
    let length = history::NameLength::get(slot) as usize;
    if length > history::MOST_NAME {
        return None;
    }
    Name::read_bytes(&slot[history::NAME_AT..history::NAME_AT + length])
}

/// Whether what the slot of a table holds is of the form: a name of a table.
pub(crate) fn is_table(slot: &[u8]) -> bool
    requires { length slot.now ≡ 256 }
    ensures { result ≡ (nat_le (length_in slot.now) 30 && is_table_name (table_of slot.now)) }
{
    catalogue::NameLength::get(slot) <= catalogue::MOST_NAME as u64
        && TableName::read_bytes(table_name(slot)).is_some()
}

/// Whether what the slot of a backup holds is of the form: a name of a file.
pub(crate) fn is_backup(slot: &[u8]) -> bool
    requires { length slot.now ≡ 256 }
    ensures { result ≡ (nat_le (length_in slot.now) 100 && is_name (file_in slot.now)) }
{
    backup_file(slot).is_some()
}

/// Whether what the slot of a row holds is of the form: its text is no longer than texts are.
pub(crate) fn is_row(slot: &[u8]) -> bool
    requires { length slot.now ≡ 256 }
    ensures { result ≡ nat_le (length_in slot.now) 200 }
{
    row::TextLength::get(slot) <= row::MOST_TEXT as u64
}
