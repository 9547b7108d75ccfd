ghost use Rattle.std.specs.Prelude.{◌≡◌, ◌+◌, ◌<◌, ◌≤◌, length, IsTrue, IfOk, OnOk, Option, Err};
ghost use Rattle.nb_host.specs.Causes.{CountsDevice, FaultCount};
ghost use Rattle.nb_model.specs.Levels.{Contents};
ghost use Rattle.nb_level.specs.Heads.{head_of};
ghost use Rattle.nb_page.specs.Quiet.{Quiet};
ghost use Rattle.nb_model.specs.Causes.{TestedAlone};
ghost use Rattle.nb_host.specs.declared.faults.Fault.TheVariants.{Refused};
ghost use Rattle.nb_host.specs.declared.refusals.Refusal.{Refusal};
ghost use Rattle.nb_chain.specs.Most.{level_most};
ghost use Rattle.nb_fold.specs.Most.{open_most};
ghost use Rattle.nb_fold.specs.Verdict.{chained, not_after};
ghost use Rattle.nb_fold.specs.Checking.{AddSays, AreAlike, AreChained, IsLast, first_size};

use crate::source::Source;
use nb_chain::{Tip, goes_on, whole};
use nb_host::{Fault, Host, Name};
use nb_level::LevelHead;
use std::alloc::Global;

/// Whether a level file goes on from the last of those before. The refusals are those of `goes_on`.
fn goes_on_from(sources: &[Source], head: &LevelHead, name: &Name) -> Result<(), Fault>
    ensures test { (last : Option Contents) (c : Contents) → IsLast sources.now last → c.head ≡ head_of head.now → TestedAlone result (not_after last name.now c) }
    ensures size { OnOk result (0 < length sources.now → AreAlike sources.now → head.now.page_size ≡ first_size sources.now) }
    ensures cause { (faults : FaultCount) → CountsDevice result faults faults }
{
    if sources.is_empty() {
        return Ok(());
    }
    let last = sources[sources.len() - 1].head();
    let wanted = u32::from(last.level) + 1;
    goes_on(head, &Tip::of(&last), name, wanted)
}

/// Reads a file to its end, tests that it goes on from the last of those before, and begins to read it again.
///
/// The refusals are `NoFile` and `BadLevel`, and those of `goes_on`, in this order.
fn add<H: Host>(
    alloc: Global,
    host: &mut H,
    name: &Name,
    sources: &mut Vec<Source>,
) -> Result<(), Fault>
    ensures answer { IsTrue H.tells → (last : Option Contents) → IsLast sources.old.items last → AddSays (H.world host.old).files name.now last sources.old.items sources.new.items (H.world host.old).reads (H.world host.new).reads result }
    ensures alike { AreAlike sources.old.items → OnOk result (AreAlike sources.new.items) }
    ensures one { OnOk result (length sources.new.items ≡ length sources.old.items + 1) }
    ensures within { IsTrue H.tells → (H.world host.new).reads ≤ (H.world host.old).reads + (level_most ((H.world host.old).files name.now) + 2) }
    ensures quiet { Quiet (H.world host.old) (H.world host.new) }
    ensures cause { CountsDevice result (H.faults host.old) (H.faults host.new) }
{
    whole(alloc, host, name)?;
    let source = Source::start(alloc, host, name)?;
    goes_on_from(sources, &source.head(), name)?;
    sources.push(source)?;
    Ok(())
}

/// Reads the files to their ends, tests that they go on from one another, and begins to read them again, side by side. It takes the
/// memory for two pages a file.
pub(crate) fn open_all<H: Host>(
    alloc: Global,
    host: &mut H,
    files: &[Name],
) -> Result<Vec<Source>, Fault>
    ensures answer { IsTrue H.tells → IfOk result (λ sources. AreChained (H.world host.old).files files.now (H.world host.old).reads (H.world host.new).reads sources.items) }
    ensures refused { IsTrue H.tells → (refusal : Refusal) → result ≡ Err (Refused refusal) → chained (H.world host.old).files files.now ≡ Err refusal }
    ensures alike { IfOk result (λ sources. AreAlike sources.items) }
    ensures all { IfOk result (λ sources. length sources.items ≡ length files.now) }
    ensures within { IsTrue H.tells → (H.world host.new).reads ≤ (H.world host.old).reads + open_most (H.world host.old).files files.now }
    ensures quiet { Quiet (H.world host.old) (H.world host.new) }
    ensures cause { CountsDevice result (H.faults host.old) (H.faults host.new) }
{
    let mut sources = Vec::new(alloc);
    for name in files {
        add(alloc, host, name, &mut sources)?;
    }
    Ok(sources)
}
