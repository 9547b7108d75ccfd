// Page 0 of a file comes last.
ghost use Rattle.std.specs.Prelude.{◌≡◌, ◌*◌, IsTrue, OnOk, length};
ghost use Rattle.nb_change.specs.Changes.{Changes, Only, Remade};
ghost use Rattle.nb_change.specs.Gave.{GaveNothing};
ghost use Rattle.nb_fields.specs.Places.{is_page_size};
ghost use Rattle.nb_host.specs.Causes.{CountsFault};
ghost use Rattle.nb_host.specs.Crash.{PageLeft};
ghost use Rattle.nb_host.specs.Files.{with_page};
ghost use Rattle.nb_restore.specs.Target.{IsKept, ReadsOr};

use nb_host::{Host, HostFault, Name};

/// Writes page 0 of a file. What stands there is kept for good before, and the page itself before the call answers.
///
/// A crash, and a fault, leave the file as it was, or with the page, or grown by zeros where it was shorter.
pub fn write_first<H: Host>(host: &mut H, name: &Name, page: &[u8]) -> Result<(), HostFault>
    requires { IsTrue (is_page_size (length page.now)) }
    ensures left { IsTrue H.tells
        → Changes (H.world host.old) (H.world host.new) (Only name.now) (Remade (H.world host.old) name.now (PageLeft (0 * length page.now) page.now ((H.world host.old).files name.now))) }
    ensures done { IsTrue H.tells → OnOk result (IsKept (H.world host.new) name.now (with_page ((H.world host.old).files name.now) (0 * length page.now) page.now)) }
    ensures now { IsTrue H.tells → ReadsOr (H.world host.old) (H.world host.new) name.now (λ file. file ≡ with_page ((H.world host.old).files name.now) (0 * length page.now) page.now) }
    ensures gave { GaveNothing (H.world host.old) (H.world host.new) }
    ensures reads { (H.world host.new).reads ≡ (H.world host.old).reads }
    ensures cause { CountsFault result (H.faults host.old) (H.faults host.new) }
{
    host.sync(name)?;
    host.write_page(name, 0, page)?;
    host.sync(name)
}
