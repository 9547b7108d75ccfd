// Both files are kept for good.
ghost use Rattle.std.specs.Prelude.{◌≡◌, IsTrue, OnOk};
ghost use Rattle.nb_host.specs.Causes.{CountsFault};
ghost use Rattle.nb_host.specs.Crash.{IsDurable};
ghost use Rattle.nb_page.specs.Quiet.{Quiet};

use nb_host::{Host, HostFault, Name};

/// Keeps the difference file for good, where there is one, and then the main file.
pub fn sync_both<H: Host>(
    host: &mut H,
    name: &Name,
    delta: &Name,
    diverts: bool,
) -> Result<(), HostFault>
    ensures main { IsTrue H.tells → OnOk result (IsDurable (H.world host.new) name.now ((H.world host.new).files name.now)) }
    ensures delta { IsTrue H.tells → IsTrue diverts → OnOk result (IsDurable (H.world host.new) delta.now ((H.world host.new).files delta.now)) }
    ensures quiet { Quiet (H.world host.old) (H.world host.new) }
    ensures reads { (H.world host.new).reads ≡ (H.world host.old).reads }
    ensures cause { CountsFault result (H.faults host.old) (H.faults host.new) }
{
    if diverts {
        host.sync(delta)?;
    }
    host.sync(name)?;
    Ok(())
}
