ghost use Rattle.std.specs.Prelude.{◌≡◌, ◌+◌, ◌≤◌, length, drop, IsTrue, IfOk};
ghost use Rattle.nb_fields.specs.Places.{is_page_size, most_pages};
ghost use Rattle.nb_page.specs.Header.{HasForm};
ghost use Rattle.nb_page.specs.Quiet.{Quiet};
ghost use Rattle.nb_host.specs.Causes.{CountsDevice};
ghost use Rattle.nb_chain.specs.Chain.{CheckSays, IsFirstOf};
ghost use Rattle.nb_chain.specs.Most.{RefusedReads, chain_most, check_most, levels_most};
ghost use Rattle.nb_chain.specs.Next.{LevelsSay, tip_link, header_link};

use crate::last_page::count_pages;
use crate::next_file::read_next;
use crate::overlay::Overlay;
use crate::tip::Tip;
use crate::{First, read_first};
use nb_host::{Fault, Host, Name};
use nb_page::Header;
use std::alloc::Global;

/// What a chain of files gives.
#[derive(Clone, Copy, Debug, PartialEq, Eq)]
pub struct Chain {
    /// Level 0, the first file.
    pub first: First,
    /// In bytes.
    pub page_size: u32,
    /// How many pages the database has.
    pub count: u32,
    /// The GUID of the last file.
    pub guid: [u8; 16],
    /// The SCN of the last file's backup.
    pub scn: u32,
}

/// What the file after level 0 goes on from. The SCN of its backup is one below that of its header.
fn first_tip(header: &Header) -> Tip
    requires { HasForm header.now }
    ensures value { tip_link result ≡ header_link header.now }
    ensures size { IsTrue (is_page_size result.page_size) }
{
    let Header {
        page_size,
        guid,
        scn,
        ..
    } = *header;
    Tip {
        page_size,
        guid,
        scn: scn - 1,
    }
}

/// Reads the files after the first, each after the one before it, and notes their pages.
fn read_levels<H: Host>(
    alloc: Global,
    host: &mut H,
    files: &[Name],
    first: Tip,
    overlay: &mut Overlay,
) -> Result<Tip, Fault>
    requires few { length files.now ≤ 10 }
    requires size { IsTrue (is_page_size first.page_size) }
    ensures answer { IsTrue H.tells
        → LevelsSay (H.world host.old).files first (drop 1 files.now) overlay.old overlay.new (H.world host.old).reads (H.world host.new).reads result }
    ensures within { IsTrue H.tells → (H.world host.new).reads ≤ (H.world host.old).reads + levels_most (H.world host.old).files (drop 1 files.now) }
    ensures size { IfOk result (λ tip. IsTrue (is_page_size tip.page_size)) }
    ensures quiet { Quiet (H.world host.old) (H.world host.new) }
    ensures cause { CountsDevice result (H.faults host.old) (H.faults host.new) }
{
    let mut last = first;
    for place in 1..files.len() {
        last = read_next(alloc, host, &files[place], &last, place as u32, overlay)?;
    }
    Ok(last)
}

/// Checks a chain of 1 to 10 files, and answers what it gives, and what it read of the first. It changes nothing.
///
/// The first file is whole pages of a database in state 1, 5 to 1,048,576 of them. The file in place k after it is a level
/// file of level k whose previous GUID, page size and previous SCN are those of the file before it.
///
/// The refusals are `NoFile`; `BadLevel`, with the file's first broken place; `ChainLevel`; `ChainGuid`; `ChainSize` and
/// `ChainScn`: for each file in this order, file by file, so the first that applies is answered.
///
/// Of the first file it reads the start, and from its end on the pages of zeros, which aren't counted. Each level file is read
/// once from front to back. It takes memory for a page, and for a mark of each page up to the last that a level file has.
pub fn check<H: Host>(alloc: Global, host: &mut H, files: &[Name]) -> Result<Chain, Fault>
    requires some { 1 ≤ length files.now }
    requires few { length files.now ≤ 10 }
    ensures answer { IsTrue H.tells
        → CheckSays (H.world host.old).files files.now (H.world host.old).reads (H.world host.new).reads result }
    ensures refused { IsTrue H.tells → RefusedReads result (H.world host.old).reads (chain_most (H.world host.old).files files.now) (H.world host.new).reads }
    ensures within { IsTrue H.tells → (H.world host.new).reads ≤ (H.world host.old).reads + check_most (H.world host.old).files files.now }
    ensures size { IfOk result (λ chain. IsTrue (is_page_size chain.page_size)) }
    ensures most { IfOk result (λ chain. chain.count ≤ most_pages) }
    ensures first { IsTrue H.tells → IfOk result (λ chain. IsFirstOf (H.world host.old).files files.now chain.first) }
    ensures form { IfOk result (λ chain. HasForm chain.first.header) }
    ensures least { IfOk result (λ chain. 5 ≤ chain.first.pages) }
    ensures pages { IfOk result (λ chain. chain.first.pages ≤ most_pages) }
    ensures quiet { Quiet (H.world host.old) (H.world host.new) }
    ensures cause { CountsDevice result (H.faults host.old) (H.faults host.new) }
{
    let name = &files[0];
    let first = read_first(alloc, host, name)?;
    let mut overlay = Overlay::new(alloc);
    let tip = first_tip(&first.header);
    let last = read_levels(alloc, host, files, tip, &mut overlay)?;
    let mut page = vec![in alloc; 0; first.header.page_size as usize]?;
    let count = count_pages(host, name, first.pages, &overlay, &mut page)?;
    let Tip {
        page_size,
        guid,
        scn,
    } = last;
    Ok(Chain {
        first,
        page_size,
        count,
        guid,
        scn,
    })
}
