ghost use Rattle.std.specs.Prelude.{◌≡◌, ◌+◌, ◌^◌, ◌<◌, ◌≤◌, ◌==◌, ◌||◌, nat_lt, length, IsTrue, IfOk, IfSome};
ghost use Rattle.nb_fields.specs.Bytes.{number_in};
ghost use Rattle.nb_fields.specs.Places.{is_page_size, most_pages};
ghost use Rattle.nb_model.specs.Levels.{is_first_page, is_bad_number, barred_after};
ghost use Rattle.nb_level.specs.Heads.{head_of};
ghost use Rattle.nb_level.specs.Reading.{end_step, single_step, run_step};

use crate::LevelHead;
use nb_fields::{MOST_PAGES, number_at};
use nb_page::read_header;

/// What stands in the place of a number where no page follows.
pub(crate) const END_MARK: u32 = u32::MAX;

/// Whether page 0 of a level file is the header of the database at its backup.
#[tactic(auto, unfolding(nb_model::specs::Levels::is_first_page, nb_page::specs::Header::header_in))]
pub(crate) fn is_first_page(head: &LevelHead, page: &[u8]) -> bool
    requires { IsTrue (is_page_size (length page.now)) }
    ensures { result ≡ is_first_page (head_of head.now) page.now }
{
    match read_header(page) {
        Some(header) => {
            header.state == 1
                && header.page_size == head.page_size
                && header.guid == head.guid
                && u64::from(header.scn) == u64::from(head.scn) + 1
        }
        None => false,
    }
}

/// Whether a number may not stand after so many pages, where the least that may is `least`.
fn is_bad_number(count: u32, least: u32, number: u32) -> bool
    ensures { result ≡ is_bad_number count least number }
{
    count == 0 && number != 0 || number < least || number >= MOST_PAGES
}

/// What follows an end mark: nothing, or the first broken place.
#[tactic(auto, unfolding(crate::specs::Reading::end_step, nb_model::specs::Levels::first_fault))]
fn end_step(at: u64, count: u32, bytes: &[u8]) -> Result<Option<(u32, u32)>, u64>
    requires { at < 2 ^ 62 }
    ensures step { result ≡ end_step at count bytes.now }
    ensures end { IfOk result (λ next. next ≡ None) }
{
    if count == 0 {
        return Err(at);
    }
    if bytes.len() < 8 {
        return Err(at + bytes.len() as u64);
    }
    if number_at(bytes, 4, 4) != u64::from(count) {
        return Err(at + 4);
    }
    if 8 < bytes.len() {
        return Err(at + 8);
    }
    Ok(None)
}

/// What the next bytes of a file of version 101 say: the end, or a page's number.
#[tactic(auto, unfolding(crate::specs::Reading::single_step, nb_model::specs::Levels::first_fault))]
pub(crate) fn single_step(
    head: &LevelHead,
    at: u64,
    count: u32,
    least: u32,
    bytes: &[u8],
) -> Result<Option<(u32, u32)>, u64>
    requires size { IsTrue (is_page_size head.now.page_size) }
    requires place { at < 2 ^ 62 }
    requires window { length bytes.now ≤ 4 + head.now.page_size }
    ensures step { result ≡ single_step (head_of head.now) at count least bytes.now }
    ensures number { IfOk result (λ next. IfSome next (λ page. page.0 ≡ number_in 0 4 bytes.now)) }
    ensures page { IfOk result (λ next. IfSome next (λ page. (length bytes.now ≡ 4 + head.now.page_size) × (least ≤ page.0) × (page.0 < most_pages))) }
{
    if bytes.len() < 4 {
        return Err(at + bytes.len() as u64);
    }
    let number = number_at(bytes, 0, 4) as u32;
    if number == END_MARK {
        return end_step(at, count, bytes);
    }
    if is_bad_number(count, least, number) {
        return Err(at);
    }
    let size = head.page_size as usize;
    if bytes.len() < 4 + size {
        return Err(at + bytes.len() as u64);
    }
    if number == 0 && !is_first_page(head, &bytes[4..4 + size]) {
        return Err(at + 4);
    }
    Ok(Some((number, 1)))
}

/// Whether a run may not have so many pages.
fn is_bad_count(number: u32, pages: u32) -> bool
    requires { number < most_pages }
    ensures { result ≡ (pages == 0 || (nat_lt 16 pages || nat_lt most_pages (number + pages))) }
{
    pages == 0 || pages > 16 || number + pages > MOST_PAGES
}

/// What the next bytes of a file of version 102 say: the end, or the first page's number and the number of pages of a
/// run.
#[tactic(auto, unfolding(crate::specs::Reading::run_step, nb_model::specs::Levels::first_fault))]
pub(crate) fn run_step(
    head: &LevelHead,
    at: u64,
    count: u32,
    least: u32,
    barred: u32,
    bytes: &[u8],
) -> Result<Option<(u32, u32)>, u64>
    requires size { IsTrue (is_page_size head.now.page_size) }
    requires place { at < 2 ^ 62 }
    requires window { length bytes.now ≤ 8 + head.now.page_size }
    ensures step { result ≡ run_step (head_of head.now) at count least barred bytes.now }
    ensures number { IfOk result (λ next. IfSome next (λ run. run.0 ≡ number_in 0 4 bytes.now)) }
    ensures run { IfOk result (λ next. IfSome next (λ run. (length bytes.now ≡ 8 + head.now.page_size) × (least ≤ run.0) × (1 ≤ run.1) × (run.1 ≤ 16) × (run.0 + run.1 ≤ most_pages))) }
{
    if bytes.len() < 4 {
        return Err(at + bytes.len() as u64);
    }
    let number = number_at(bytes, 0, 4) as u32;
    if number == END_MARK {
        return end_step(at, count, bytes);
    }
    if is_bad_number(count, least, number) || number == barred {
        return Err(at);
    }
    if bytes.len() < 8 {
        return Err(at + bytes.len() as u64);
    }
    let pages = number_at(bytes, 4, 4) as u32;
    if is_bad_count(number, pages) {
        return Err(at + 4);
    }
    let size = head.page_size as usize;
    if bytes.len() < 8 + size {
        return Err(at + bytes.len() as u64);
    }
    if number == 0 && !is_first_page(head, &bytes[8..8 + size]) {
        return Err(at + 8);
    }
    Ok(Some((number, pages)))
}

/// The number that may not begin the run after one of so many pages.
pub(crate) fn barred_after(number: u32, pages: u32) -> u32
    requires { number + pages < 2 ^ 32 }
    ensures { result ≡ barred_after number pages }
{
    if pages < 16 { number + pages } else { END_MARK }
}
