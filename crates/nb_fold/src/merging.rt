ghost use Rattle.std.specs.Prelude.{◌≡◌, ◌+◌, ◌<◌, ◌≤◌, ℕ, List, None, Some, IsTrue, IfOk, IfSome, OnOk, length};
ghost use Rattle.nb_fields.specs.Places.{most_pages};
ghost use Rattle.nb_host.specs.Answers.{IsTaken};
ghost use Rattle.nb_host.specs.Causes.{CountsDevice};
ghost use Rattle.nb_change.specs.Gave.{GaveNothing};
ghost use Rattle.nb_model.specs.Image.{Numbered};
ghost use Rattle.nb_page.specs.Quiet.{Quiet};
ghost use Rattle.nb_gather.specs.Making.{IsUnfinished};
ghost use Rattle.nb_fold.specs.Merging.{AreApart, FallsOn, FoldsOn, HasFolded, IsFolding, Makes};
ghost use Rattle.nb_fold.specs.Sources.{AllWait, AreAtEnd, AreOfPages, IsLeast, counts_at, due, rests, waiting_page};

use crate::source::Source;
use nb_gather::LevelFile;
use nb_host::{Fault, Host};

/// The page of the least number that waits, with that number: where several files have it, that of the last of them.
fn next_page(sources: &[Source]) -> Option<(u32, &[u8])>
    ensures none { result ≡ None → AreAtEnd sources.now }
    ensures below { IfSome result (λ next. next.0 < most_pages) }
    ensures size { (size : ℕ) → AreOfPages size sources.now → IfSome result (λ next. length next.1.now ≡ size) }
    ensures some { IfSome result (λ next. IsLeast next.0 sources.now × (waiting_page next.0 sources.now ≡ Some next.1.now)) }
{
    let (first, rest) = sources.split_first()?;
    let next = next_page(rest);
    let Some(number) = first.waiting() else {
        return next;
    };
    let (least, page) = match next {
        Some(next) => next,
        None => return Some((number, first.page())),
    };
    if number < least {
        return Some((number, first.page()));
    }
    Some((least, page))
}

/// Reads on in each file where the page of that number waits.
fn pass_all<H: Host>(host: &mut H, sources: &mut [Source], number: u32) -> Result<(), Fault>
    ensures waits { IsTrue H.tells → (rss : List (List Numbered)) → AllWait (H.world host.old).files sources.old rss → OnOk result (AllWait (H.world host.old).files sources.new (rests number rss)) }
    ensures sure { IsTrue H.tells → (rss : List (List Numbered)) → AllWait (H.world host.old).files sources.old rss → IsTaken result (λ done. Unit {0}) }
    ensures sizes { (size : ℕ) → AreOfPages size sources.old → AreOfPages size sources.new }
    ensures apart { (name : List ℕ) → AreApart name sources.old → AreApart name sources.new }
    ensures falls { OnOk result (due sources.new + counts_at number sources.old ≤ due sources.old) }
    ensures quiet { Quiet (H.world host.old) (H.world host.new) }
    ensures reads { IsTrue H.tells → (H.world host.new).reads ≤ (H.world host.old).reads + counts_at number sources.old }
    ensures cause { CountsDevice result (H.faults host.old) (H.faults host.new) }
{
    for place in 0..sources.len() {
        sources[place].pass(host, number)?;
    }
    Ok(())
}

/// Folds the page of the least number that waits, reads on after it, and answers true; or answers false, where no page waits.
fn fold_page<H: Host>(
    host: &mut H,
    sources: &mut [Source],
    file: &mut LevelFile,
) -> Result<bool, Fault>
    requires sizes { AreOfPages file.old.head.page_size sources.old }
    requires few { file.old.written + due sources.old < 4294967295 }
    ensures folds { IsTrue H.tells → (whole : List Numbered) (most : ℕ) → IsFolding (H.world host.old) file.old sources.old whole most → IfOk result (λ more. FoldsOn more (H.world host.new) file.new sources.new whole most) }
    ensures sure { IsTrue H.tells → (whole : List Numbered) (most : ℕ) → IsFolding (H.world host.old) file.old sources.old whole most → IsTaken result (λ more. Unit {0}) }
    ensures makes { IsTrue H.tells → (whole : List Numbered) (most : ℕ) → IsFolding (H.world host.old) file.old sources.old whole most → Makes (H.world host.old) (H.world host.new) file.old.name IsUnfinished }
    ensures within { IsTrue H.tells → (whole : List Numbered) (most : ℕ) → IsFolding (H.world host.old) file.old sources.old whole most → (H.world host.new).reads ≤ most }
    ensures sizes { AreOfPages file.old.head.page_size sources.new }
    ensures same { file.new ≡ record file.old { written = file.new.written; run = file.new.run } }
    ensures falls { IfOk result (λ more. FallsOn more file.old file.new sources.old sources.new) }
    ensures gave { GaveNothing (H.world host.old) (H.world host.new) }
    ensures cause { CountsDevice result (H.faults host.old) (H.faults host.new) }
{
    let (number, page) = match next_page(sources) {
        Some(next) => next,
        None => return Ok(false),
    };
    file.gather(host, number, page)?;
    pass_all(host, sources, number)?;
    Ok(true)
}

/// Folds all pages of the files, in the order of their numbers.
pub(crate) fn merge<H: Host>(
    host: &mut H,
    sources: &mut [Source],
    file: &mut LevelFile,
) -> Result<(), Fault>
    requires sizes { AreOfPages file.old.head.page_size sources.old }
    requires few { file.old.written + due sources.old < 4294967295 }
    ensures folds { IsTrue H.tells → (whole : List Numbered) (most : ℕ) → IsFolding (H.world host.old) file.old sources.old whole most → OnOk result (HasFolded (H.world host.new) file.new whole most) }
    ensures sure { IsTrue H.tells → (whole : List Numbered) (most : ℕ) → IsFolding (H.world host.old) file.old sources.old whole most → IsTaken result (λ done. Unit {0}) }
    ensures makes { IsTrue H.tells → (whole : List Numbered) (most : ℕ) → IsFolding (H.world host.old) file.old sources.old whole most → Makes (H.world host.old) (H.world host.new) file.old.name IsUnfinished }
    ensures within { IsTrue H.tells → (whole : List Numbered) (most : ℕ) → IsFolding (H.world host.old) file.old sources.old whole most → (H.world host.new).reads ≤ most }
    ensures same { file.new ≡ record file.old { written = file.new.written; run = file.new.run } }
    ensures gave { GaveNothing (H.world host.old) (H.world host.new) }
    ensures cause { CountsDevice result (H.faults host.old) (H.faults host.new) }
{
    while fold_page(host, sources, file)? {}
    Ok(())
}
