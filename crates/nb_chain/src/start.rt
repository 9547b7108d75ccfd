ghost use Rattle.std.specs.Prelude.{◌≡◌, ◌≤◌, ◌+◌, length, IsTrue, IfOk};
ghost use Rattle.nb_page.specs.Quiet.{Quiet};
ghost use Rattle.nb_host.specs.Causes.{CountsDevice};
ghost use Rattle.nb_chain.specs.First.{StartSays};

use nb_host::{Fault, Host, Name, Refusal};

/// How long a file is, and how many of its first bytes were read.
#[derive(Clone, Copy)]
pub(crate) struct Start {
    pub(crate) length: u64,
    pub(crate) got: usize,
}

/// Reads the first 64 bytes of a file, or all of a shorter one. The refusal is `NoFile`.
pub(crate) fn read_start<H: Host>(
    host: &mut H,
    name: &Name,
    first: &mut [u8],
) -> Result<Start, Fault>
    requires { length first.old ≡ 64 }
    ensures answer { IsTrue H.tells → StartSays ((H.world host.old).files name.now) name.now first.new result }
    ensures room { IfOk result (λ start. start.got ≤ 64) }
    ensures quiet { Quiet (H.world host.old) (H.world host.new) }
    ensures reads { IsTrue H.tells → (H.world host.new).reads ≤ (H.world host.old).reads + 1 }
    ensures cause { CountsDevice result (H.faults host.old) (H.faults host.new) }
{
    let Some(length) = host.size(name)? else {
        return Err(Fault::Refused(Refusal::NoFile {
            name: name.copied(),
        }));
    };
    let got = host.read_at(name, 0, first)?;
    Ok(Start { length, got })
}
