// The script that a job names is read.
ghost use Rattle.std.specs.Prelude.{◌≢◌, ℕ, IsTrue, Err};
ghost use Rattle.nb_host.specs.declared.faults.Fault.TheVariants.{Refused};
ghost use Rattle.nb_host.specs.declared.refusals.Refusal.TheVariants.{BadScript};
ghost use Rattle.nb_host.specs.Causes.{CountsDevice};
ghost use Rattle.nb_page.specs.Quiet.{Quiet};
ghost use Rattle.nb_top.specs.Performed.{IsFileRead};

use nb_host::{Fault, Host, Name, Refusal};
use nb_script::MOST_BYTES;
use std::alloc::Global;

/// Reads a file of a script whole. The refusals are `NoFile` and `ScriptLong`. It changes nothing.
pub fn read_file<H: Host>(alloc: Global, host: &mut H, name: &Name) -> Result<Vec<u8>, Fault>
    ensures read { IsTrue H.tells → IsFileRead result name.now ((H.world host.old).files name.now) }
    ensures unbroken { (line : ℕ) → result ≢ Err (Refused (BadScript line)) }
    ensures quiet { Quiet (H.world host.old) (H.world host.new) }
    ensures cause { CountsDevice result (H.faults host.old) (H.faults host.new) }
{
    let Some(size) = host.size(name)? else {
        return Err(Fault::Refused(Refusal::NoFile {
            name: name.copied(),
        }));
    };
    if size > MOST_BYTES as u64 {
        return Err(Fault::Refused(Refusal::ScriptLong { bytes: size }));
    }
    let mut bytes = vec![in alloc; 0; size as usize]?;
    let count = host.read_at(name, 0, &mut bytes)?;
    bytes.truncate(count);
    Ok(bytes)
}
