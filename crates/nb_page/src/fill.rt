ghost use Rattle.std.specs.Prelude.{◌≡◌, ◌+◌, ◌-◌, ◌*◌, ◌/◌, ◌%◌, ◌==◌, ◌<◌, ◌≤◌, [], IsTrue, length, replicate, if◌then◌else◌};
ghost use Rattle.nb_fields.specs.Places.{is_page_size, bits_in, entries_in};
ghost use Rattle.nb_fields.specs.Page.{with_payload};
ghost use Rattle.nb_fields.specs.Payloads.{header_payload, inventory_payload, scn_payload, data_payload, taken_bits, same_entries};
ghost use Rattle.nb_fields.specs.Fresh.{fresh_count};
ghost use Rattle.nb_page.specs.Blank.{IsBlank};

use crate::count::fresh_count;
use crate::{Header, write_header};
use nb_fields::layouts::{data, header, inventory, scn_inventory};
use nb_fields::states::NORMAL;
use nb_fields::{bits_in, entries_in, put_number};

/// The header of a new database after the head of its page: state 0, SCN 1 and nil GUIDs.
pub(crate) fn fill_header(page: &mut [u8])
    requires size { IsTrue (is_page_size (length page.old)) }
    requires blank { IsBlank page.old }
    ensures { page.new
        ≡ with_payload page.old (header_payload (length page.old) 0 1 (replicate 16 0) (replicate 16 0)) }
{
    let fresh = Header {
        page_size: page.len() as u32,
        state: NORMAL,
        scn: 1,
        guid: [0; 16],
        pending: [0; 16],
    };
    write_header(page, &fresh);
    header::Forced::put(page, 1);
    header::Catalogue::put(page, u64::from(header::CATALOGUE_PAGE));
    header::History::put(page, u64::from(header::HISTORY_PAGE));
}

/// The page inventory page at place `number` of a new database, after its head: the bits of its pages are taken.
pub(crate) fn fill_inventory(page: &mut [u8], raw: u32, number: u32)
    requires size { IsTrue (is_page_size (length page.old)) }
    requires blank { IsBlank page.old }
    requires raw { raw ≤ 65535 }
    requires inside { number < fresh_count (length page.old) raw }
    ensures { let size = length page.old in
        let k = (number + 1) / bits_in size in
        page.new ≡ with_payload page.old (inventory_payload size k (fresh_count size raw - k * bits_in size)) }
{
    let size = page.len() as u32;
    let count = fresh_count(size, raw);
    let bits = bits_in(size);
    let k = (number + 1) / bits;
    inventory::Number::put(page, u64::from(k));
    fill_bits(&mut page[inventory::BITS_AT..], (count - k * bits) as usize);
}

/// Bits of which so many are taken, and the others free.
fn fill_bits(bits: &mut [u8], taken: usize)
    ensures { bits.new ≡ taken_bits (length bits.old) taken }
{
    let whole = taken / 8;
    bits.fill(0);
    if whole < bits.len() {
        bits[whole] = (256 - (1u16 << (taken % 8))) as u8;
        bits[whole + 1..].fill(255);
    }
}

/// The SCN inventory page at place `number` of a new database, after its head: each entry is 1.
pub(crate) fn fill_scn_inventory(page: &mut [u8], number: u32)
    requires size { IsTrue (is_page_size (length page.old)) }
    requires blank { IsBlank page.old }
    ensures { let size = length page.old in
        page.new ≡ with_payload page.old (scn_payload size (number / entries_in size) 1) }
{
    let k = number / entries_in(page.len() as u32);
    scn_inventory::Number::put(page, u64::from(k));
    fill_entries(&mut page[scn_inventory::ENTRIES_AT..], 1);
}

/// Entries that are all the same.
fn fill_entries(entries: &mut [u8], scn: u32)
    requires { length entries.old % 4 ≡ 0 }
    ensures { entries.new ≡ same_entries scn (length entries.old / 4) }
{
    for index in 0..entries.len() / 4 {
        put_number(entries, 4 * index, 4, u64::from(scn));
    }
}

/// The first page of the catalogue or of the history, after its head: no slot is used.
pub(crate) fn fill_data(page: &mut [u8], number: u32)
    requires size { IsTrue (is_page_size (length page.old)) }
    requires blank { IsBlank page.old }
    ensures { page.new ≡ with_payload page.old (data_payload 0 (if number == 4 then 1 else 0) []) }
{
    let owner = u64::from(number == header::HISTORY_PAGE);
    data::Owner::put(page, owner);
}
