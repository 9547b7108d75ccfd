ghost use Rattle.std.specs.Prelude.{◌+◌, ◌<◌, ◌≤◌, ◌^◌, length, IsTrue, IfOk};
ghost use Rattle.nb_page.specs.Quiet.{Quiet};
ghost use Rattle.nb_host.specs.Causes.{CountsDevice};
ghost use Rattle.nb_catalog.specs.Answers.{Says};
ghost use Rattle.nb_catalog.specs.Chained.{KeepsChains};
ghost use Rattle.nb_catalog.specs.Plans.{IsWithin};
ghost use Rattle.nb_catalog.specs.Reads.{all_reads, files_most};
ghost use Rattle.nb_catalog.specs.Turns.{planned};

use crate::{Plan, catalogue};
use nb_host::{Fault, Host, Name};
use std::alloc::Global;

/// Reads backup files, and answers which of them the last restore points need, `keep` of them. It changes nothing.
///
/// The refusals are those of `catalogue`, and no file is read more than by it. The files of the line of each point that is kept are a chain that can be restored, and none
/// of them is dropped.
pub fn plan_files<H: Host>(
    alloc: Global,
    host: &mut H,
    files: &[Name],
    keep: u32,
) -> Result<Plan, Fault>
    requires few { length files.now < 2 ^ 32 }
    ensures answer { IsTrue H.tells → Says (planned (H.world host.old).files files.now keep) result }
    ensures within { IfOk result (λ plan. IsWithin (length files.now) plan) }
    ensures chains { IsTrue H.tells → IfOk result (KeepsChains (H.world host.old).files files.now keep) }
    ensures reads { IsTrue H.tells → IfOk result (λ plan. (H.world host.new).reads ≤ (H.world host.old).reads + all_reads (H.world host.old).files files.now) }
    ensures most { IsTrue H.tells → (H.world host.new).reads ≤ (H.world host.old).reads + files_most (H.world host.old).files files.now }
    ensures quiet { Quiet (H.world host.old) (H.world host.new) }
    ensures cause { CountsDevice result (H.faults host.old) (H.faults host.new) }
{
    let catalogue = catalogue(alloc, host, files)?;
    let plan = catalogue.plan(keep)?;
    Ok(plan)
}
