ghost use Rattle.std.specs.Prelude.{◌≡◌, ◌+◌, ◌<◌, ◌≤◌, List, Err, IsTrue, IfOk, OnOk, false, true, length, ℕ};
ghost use Rattle.nb_host.specs.Causes.{CountsDevice};
ghost use Rattle.nb_fields.specs.Places.{is_page_size};
ghost use Rattle.nb_host.specs.Files.{Files};
ghost use Rattle.nb_host.specs.declared.faults.Fault.TheVariants.{Refused};
ghost use Rattle.nb_host.specs.declared.refusals.Refusal.{Refusal};
ghost use Rattle.nb_host.specs.declared.refusals.Refusal.TheVariants.{FileExists};
ghost use Rattle.nb_level.specs.Heads.{head_of};
ghost use Rattle.nb_model.specs.Levels.{Contents};
ghost use Rattle.nb_page.specs.Free.{is_free_name};
ghost use Rattle.nb_page.specs.Quiet.{Quiet};
ghost use Rattle.nb_fold.specs.Checking.{AreAlike, first_size};
ghost use Rattle.nb_fold.specs.Fold.{Folds};
ghost use Rattle.nb_fold.specs.Folding.{folded_head};
ghost use Rattle.nb_fold.specs.Most.{fold_most};
ghost use Rattle.nb_fold.specs.Prepared.{IsPrepared};
ghost use Rattle.nb_fold.specs.Sources.{AreOfPages, AreOpened, due};
ghost use Rattle.nb_fold.specs.Verdict.{fold_verdict};

use crate::Folded;
use crate::opening::open_all;
use crate::source::Source;
use crate::writing::write;
use nb_gather::LevelFile;
use nb_host::{Fault, Host, Name, Refusal};
use nb_level::LevelHead;
use nb_page::is_free;
use std::alloc::Global;

/// The head of the file that tells what these tell: it goes on from what the first goes on from, and is of the backup of the last.
fn folded_head(sources: &[Source]) -> LevelHead
    requires { 0 < length sources.now }
    ensures head { (files : Files) (names : List (List ℕ)) (cs : List Contents) → AreOpened files names sources.now cs → head_of result ≡ folded_head cs }
    ensures alike { AreAlike sources.now → result.page_size ≡ first_size sources.now }
    ensures size { IsTrue (is_page_size result.page_size) }
{
    let LevelHead {
        level,
        previous,
        page_size,
        previous_scn,
        ..
    } = sources[0].head();
    let LevelHead { guid, scn, .. } = sources[sources.len() - 1].head();
    LevelHead {
        level,
        guid,
        previous,
        page_size,
        scn,
        previous_scn,
    }
}

/// Whether a file may be made of that name. The refusal is `FileExists`.
fn check_out<H: Host>(host: &mut H, out: &Name) -> Result<(), Fault>
    ensures free { IsTrue H.tells → OnOk result (is_free_name (H.world host.old).files out.now ≡ true) }
    ensures taken { IsTrue H.tells → (refusal : Refusal) → result ≡ Err (Refused refusal) → (is_free_name (H.world host.old).files out.now ≡ false) × (refusal ≡ FileExists out.now) }
    ensures once { IsTrue H.tells → (H.world host.new).reads ≤ (H.world host.old).reads + 1 }
    ensures quiet { Quiet (H.world host.old) (H.world host.new) }
    ensures cause { CountsDevice result (H.faults host.old) (H.faults host.new) }
{
    if is_free(host, out)? {
        return Ok(());
    }
    Err(Fault::Refused(Refusal::FileExists { name: out.copied() }))
}

/// Accepts the fold, and takes all that it needs. It changes nothing.
fn prepare<H: Host>(
    alloc: Global,
    host: &mut H,
    files: &[Name],
    out: &Name,
) -> Result<(Vec<Source>, LevelFile), Fault>
    requires some { 2 ≤ length files.now }
    requires few { length files.now ≤ 9 }
    ensures ready { IsTrue H.tells → IfOk result (λ plan. IsPrepared (H.world host.old) (H.world host.new) out.now files.now plan.0.items plan.1) }
    ensures refused { IsTrue H.tells → (refusal : Refusal) → result ≡ Err (Refused refusal) → fold_verdict (H.world host.old).files out.now files.now ≡ Err refusal }
    ensures within { IsTrue H.tells → (H.world host.new).reads ≤ (H.world host.old).reads + fold_most (H.world host.old).files out.now files.now }
    ensures name { IfOk result (λ plan. plan.1.name ≡ out.now) }
    ensures sizes { IfOk result (λ plan. AreOfPages plan.1.head.page_size plan.0.items) }
    ensures fresh { IfOk result (λ plan. plan.1.written ≡ 0) }
    ensures empty { IfOk result (λ plan. plan.1.run.count ≡ 0) }
    ensures due { IfOk result (λ plan. due plan.0.items < 4294967295) }
    ensures quiet { Quiet (H.world host.old) (H.world host.new) }
    ensures cause { CountsDevice result (H.faults host.old) (H.faults host.new) }
{
    check_out(host, out)?;
    let sources = open_all(alloc, host, files)?;
    let head = folded_head(&sources);
    let file = LevelFile::new(alloc, out, &head)?;
    Ok((sources, file))
}

/// Folds 2 to 9 consecutive level files into one, and answers its head and how many pages it has.
///
/// The file that is made goes on from the backup that the first of them goes on from, and is of the backup of the last: a restore with it
/// gives what a restore with all of them gave. For each page number that one of them has it has the page of the last one that has it. It is
/// of version 102, whatever the versions of the files are, and is kept for good before the call answers.
///
/// The refusals are `FileExists`, where the name of the file isn't free; then for each file in order `NoFile`, `BadLevel` with its first
/// broken place, which is 0 where it doesn't begin as a level file does, and for each but the first `ChainLevel`, `ChainGuid`, `ChainSize` and
/// `ChainScn`, where it doesn't go on from the one before it: its level has to be one more. A refused call changes nothing. Neither does one
/// that answers `Memory`: all memory is taken before the file is made.
///
/// A crash, and an answer of `Device`, leave the file as it was, or such that nothing takes it for a backup, or whole. No other file is
/// touched. Whatever it answers, each file is read twice at most, page by page: once to its end to check it and once beside the others. It
/// takes the memory for two pages a file, and for a run of 16.
pub fn fold<H: Host>(
    alloc: Global,
    host: &mut H,
    files: &[Name],
    out: &Name,
) -> Result<Folded, Fault>
    requires some { 2 ≤ length files.now }
    requires few { length files.now ≤ 9 }
    ensures folds { IsTrue H.tells → Folds result (H.world host.old) (H.world host.new) out.now files.now }
    ensures within { IsTrue H.tells → (H.world host.new).reads ≤ (H.world host.old).reads + fold_most (H.world host.old).files out.now files.now }
    ensures cause { CountsDevice result (H.faults host.old) (H.faults host.new) }
{
    let (mut sources, mut file) = prepare(alloc, host, files, out)?;
    write(host, &mut sources, &mut file, out)?;
    Ok(Folded {
        head: *file.head(),
        pages: file.written(),
    })
}
