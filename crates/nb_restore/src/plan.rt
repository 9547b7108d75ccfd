ghost use Rattle.std.specs.Prelude.{◌≡◌, ◌+◌, ◌≤◌, IsTrue, IfOk, List, Some, length, true};
ghost use Rattle.nb_host.specs.Causes.{CountsDevice};
ghost use Rattle.nb_fields.specs.Header.{is_header};
ghost use Rattle.nb_fields.specs.Places.{is_page_size, most_pages};
ghost use Rattle.nb_model.specs.Image.{Page, first_page};
ghost use Rattle.nb_model.specs.Levels.{joined};
ghost use Rattle.nb_model.specs.Sound.{IsOfSize};
ghost use Rattle.nb_page.specs.Header.{HasForm};
ghost use Rattle.nb_page.specs.Quiet.{Quiet};
ghost use Rattle.nb_chain.specs.Chain.{IsFirstOf};
ghost use Rattle.nb_model.specs.Restoring.{verdict};
ghost use Rattle.nb_chain.specs.Most.{RefusedReads, chain_most, check_most};
ghost use Rattle.nb_restore.specs.Copied.{IsDone};
ghost use Rattle.nb_restore.specs.Most.{ready_most};
ghost use Rattle.nb_restore.specs.Plan.{AcceptSays, PlanSays};
ghost use Rattle.nb_restore.specs.Sources.{AreOfPages};
ghost use Rattle.nb_restore.specs.Target.{IsUnfinishedPage};

use crate::readers::start_readers;
use nb_chain::{Chain, First, check};
use nb_fields::layouts::header;
use nb_host::{Fault, Host, Name, Refusal};
use nb_level::LevelReader;
use nb_page::{Header, is_free, write_header};
use std::alloc::Global;

/// All that a restore needs before it makes the target.
pub(crate) struct Plan {
    /// How many pages the database will have.
    pub(crate) count: u32,
    /// How many pages level 0 has, pages of zeros at its end among them.
    pub(crate) pages: u32,
    /// Page 0 of level 0.
    pub(crate) first: Vec<u8>,
    /// The same page in state 3 and without a pending GUID: while it stands in a file, a restore goes on there.
    pub(crate) page: Vec<u8>,
    /// The level files after level 0.
    pub(crate) readers: Vec<LevelReader>,
}

/// Checks that the target's name is free, and that the files are a chain.
fn accept<H: Host>(
    alloc: Global,
    host: &mut H,
    target: &Name,
    files: &[Name],
) -> Result<Chain, Fault>
    requires some { 1 ≤ length files.now }
    requires few { length files.now ≤ 10 }
    ensures answer { IsTrue H.tells → AcceptSays (H.world host.old).files target.now files.now result }
    ensures refused { IsTrue H.tells → RefusedReads result (H.world host.old).reads (1 + chain_most (H.world host.old).files files.now) (H.world host.new).reads }
    ensures within { IsTrue H.tells → (H.world host.new).reads ≤ (H.world host.old).reads + (1 + check_most (H.world host.old).files files.now) }
    ensures first { IsTrue H.tells → IfOk result (λ chain. IsFirstOf (H.world host.old).files files.now chain.first) }
    ensures form { IfOk result (λ chain. HasForm chain.first.header) }
    ensures least { IfOk result (λ chain. 5 ≤ chain.first.pages) }
    ensures pages { IfOk result (λ chain. chain.first.pages ≤ most_pages) }
    ensures quiet { Quiet (H.world host.old) (H.world host.new) }
    ensures cause { CountsDevice result (H.faults host.old) (H.faults host.new) }
{
    if !is_free(host, target)? {
        return Err(Fault::Refused(Refusal::FileExists {
            name: target.copied(),
        }));
    }
    check(alloc, host, files)
}

/// Reads page 0 of level 0, and fills in the page that stands in its place until the restore is done.
fn read_page_0<H: Host>(
    host: &mut H,
    file: &Name,
    header: &Header,
    first: &mut [u8],
    page: &mut [u8],
) -> Result<(), Fault>
    requires size { IsTrue (is_page_size (length first.old)) }
    requires same { length page.old ≡ length first.old }
    requires form { HasForm header.now }
    ensures answer { IsTrue H.tells → (ps : List Page) → (H.world host.old).files file.now ≡ Some (joined ps) → IsOfSize (length first.old) ps → 1 ≤ length ps → is_header (first_page ps) ≡ true
        → IsDone result ((first.new ≡ first_page ps) × IsUnfinishedPage page.new) }
    ensures quiet { Quiet (H.world host.old) (H.world host.new) }
    ensures once { IsTrue H.tells → (H.world host.new).reads ≤ (H.world host.old).reads + 1 }
    ensures cause { CountsDevice result (H.faults host.old) (H.faults host.new) }
{
    if !host.read_page(file, 0, first)? {
        return Err(Fault::Refused(Refusal::BadLevel {
            name: file.copied(),
            at: 0,
        }));
    }
    page.copy_from_slice(first);
    let mut unfinished = *header;
    unfinished.state = 3;
    unfinished.pending = [0; 16];
    write_header(page, &unfinished);
    Ok(())
}

/// Accepts the chain, and takes what its restore needs. It changes nothing.
pub(crate) fn prepare<H: Host>(
    alloc: Global,
    host: &mut H,
    target: &Name,
    files: &[Name],
) -> Result<Plan, Fault>
    requires some { 1 ≤ length files.now }
    requires few { length files.now ≤ 10 }
    ensures answer { IsTrue H.tells → PlanSays (H.world host.old).files target.now files.now result }
    ensures refused { IsTrue H.tells → RefusedReads result (H.world host.old).reads (1 + chain_most (H.world host.old).files files.now) (H.world host.new).reads }
    ensures within { IsTrue H.tells
        → (H.world host.new).reads ≤ (H.world host.old).reads + (1 + check_most (H.world host.old).files files.now + ready_most files.now (verdict (H.world host.old).files files.now)) }
    ensures size { IfOk result (λ plan. IsTrue (is_page_size (length plan.page.items))) }
    ensures first { IfOk result (λ plan. length plan.first.items ≡ length plan.page.items) }
    ensures most { IfOk result (λ plan. plan.pages ≤ most_pages) }
    ensures readers { IfOk result (λ plan. AreOfPages (length plan.page.items) plan.readers.items) }
    ensures quiet { Quiet (H.world host.old) (H.world host.new) }
    ensures cause { CountsDevice result (H.faults host.old) (H.faults host.new) }
{
    let level_0 = &files[0];
    let chain = accept(alloc, host, target, files)?;
    let First { header, pages } = chain.first;
    let readers = start_readers(alloc, host, files, header.page_size)?;
    let mut first = vec![in alloc; 0; header.page_size as usize]?;
    let mut page = vec![in alloc; 0; header.page_size as usize]?;
    read_page_0(host, level_0, &header, &mut first, &mut page)?;
    Ok(Plan {
        count: chain.count,
        pages,
        first,
        page,
        readers,
    })
}
