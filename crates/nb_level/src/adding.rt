ghost use Rattle.std.specs.Prelude.{IsTrue};
ghost use Rattle.nb_host.specs.Calls.{IsSilent};
ghost use Rattle.nb_host.specs.Causes.{CountsFault};
ghost use Rattle.nb_level.specs.Adding.{AddsTwo};

use nb_host::{Host, HostFault, Name};

/// Appends two pieces to a file.
pub(crate) fn append_two<H: Host>(
    host: &mut H,
    name: &Name,
    first: &[u8],
    second: &[u8],
) -> Result<(), HostFault>
    ensures adds { IsTrue H.tells → AddsTwo result (H.world host.old) (H.world host.new) name.now first.now second.now }
    ensures log { IsSilent (H.world host.old) (H.world host.new) }
    ensures cause { CountsFault result (H.faults host.old) (H.faults host.new) }
{
    if let Err(fault) = host.append(name, first) {
        return Err(fault);
    }
    host.append(name, second)
}
