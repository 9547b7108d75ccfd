// The script of a number is written to a file, and run.
ghost use Rattle.std.specs.Prelude.{◌≡◌, ◌⊎◌, false, Ok, IfOk};
ghost use Rattle.nb_host.specs.Names.{is_delta};
ghost use Rattle.nb_host.specs.Causes.{CountsRun};
ghost use Rattle.nb_top.specs.Goes.{Goes};
ghost use Rattle.nb_top.specs.Requests.{Runs, ToGenerate};

use crate::script::{refuse, run_script, settled};
use crate::telling::Telling;
use nb_ended::Status;
use nb_gen::{generate, write_script};
use nb_host::{Host, Name, Refusal, RunError};
use nb_page::is_free;
use nb_script::parse;
use std::alloc::Global;

/// Writes the script of that number to a new file and runs it, and tells only refusals and the pages by kind. All memory that the script
/// needs is taken before its file is made.
pub(crate) fn run_generated<H: Host>(
    alloc: Global,
    host: &mut H,
    number: u64,
    name: &Name,
) -> Result<Status, RunError>
    requires { is_delta name.now ≡ false }
    ensures goes { Goes H.world H.tells result host.old host.new (Runs (Ok (ToGenerate number name.now))) }
    ensures done { IfOk result (λ status. (status ≡ Status.Done) ⊎ (status ≡ Status.Refused)) }
    ensures cause { CountsRun result (H.faults host.old) (H.faults host.new) }
{
    if !is_free(host, name)? {
        let name = name.copied();
        return refuse(alloc, host, 1, Refusal::FileExists { name });
    }
    let Ok(bytes) = generate(alloc, number) else {
        return Err(RunError::Memory);
    };
    let script = settled(parse(alloc, &bytes))?;
    write_script(host, name, &bytes)?;
    match script {
        Ok(script) => run_script(alloc, host, &script, Telling::Sparingly, &mut None),
        Err(refusal) => refuse(alloc, host, 0, refusal),
    }
}
