// A script is written to a file.
ghost use Rattle.std.specs.Prelude.{IsTrue, OnOk};
ghost use Rattle.nb_host.specs.Causes.{CountsFault};
ghost use Rattle.nb_change.specs.Changes.{Changes, Only, Remade};
ghost use Rattle.nb_change.specs.Gave.{GaveNothing};
ghost use Rattle.nb_gather.specs.Making.{IsKept, IsUnfinishedOr};
ghost use Rattle.nb_gen.specs.Texts.{IsScriptText};

use nb_host::{Host, HostFault, Name};

/// Makes a file of that name with these bytes, and keeps it for good. A crash before it answers leaves the file as it was, unfinished or whole.
pub fn write_script<H: Host>(host: &mut H, name: &Name, bytes: &[u8]) -> Result<(), HostFault>
    requires { IsScriptText bytes.now }
    ensures left { IsTrue H.tells → Changes (H.world host.old) (H.world host.new) (Only name.now) (Remade (H.world host.old) name.now (IsUnfinishedOr bytes.now)) }
    ensures kept { IsTrue H.tells → OnOk result (IsKept (H.world host.new) name.now bytes.now) }
    ensures gave { GaveNothing (H.world host.old) (H.world host.new) }
    ensures cause { CountsFault result (H.faults host.old) (H.faults host.new) }
{
    host.make(name)?;
    host.append(name, bytes)?;
    host.sync(name)
}
