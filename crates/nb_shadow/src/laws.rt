//! What the definitions of a shadow come to.

ghost use Rattle.std.specs.Prelude.{◌≡◌, ℕ, List, false, IsTrue, OnOk};
ghost use Rattle.nb_host.specs.Files.{Files};
ghost use Rattle.nb_host.specs.Causes.{CountsFault};
ghost use Rattle.nb_host.specs.Crash.{IsDurable};
ghost use Rattle.nb_shadow.specs.Shadowed.{shadowed, IsInStep};
ghost use Rattle.nb_shadow.specs.Alone.{database_alone, twin_alone, AreDurable};

use crate::{Shadow, Twin};
use nb_host::{Host, HostFault, Name};

/// Of whatever a crash leaves of the host below, the shadow has the database by itself, and the twin by itself in its place.
pub fn each_side_stands<H: Host>(shadow: &Shadow<'_, H>)
    ensures database { IsTrue H.tells → (t : ℕ) (all : Files) (said : List ℕ) → (H.world shadow.now.host.now).left_since t all said
        → (shadowed H.tells shadow.now.twin.pairs (H.world shadow.now.host.now)).left_since t (database_alone shadow.now.twin.pairs all) said }
    ensures twin { IsTrue H.tells → (t : ℕ) (all : Files) (said : List ℕ) → (H.world shadow.now.host.now).left_since t all said
        → (shadowed H.tells shadow.now.twin.pairs (H.world shadow.now.host.now)).left_since t (twin_alone shadow.now.twin.pairs all) said }
{
    let _twin = &shadow.twin;
}

/// Syncs a file, over any host.
fn sync_any<H: Host>(host: &mut H, name: &Name) -> Result<(), HostFault>
    ensures durable { IsTrue H.tells → OnOk result (IsDurable (H.world host.new) name.now ((H.world host.old).files name.now)) }
    ensures cause { CountsFault result (H.faults host.old) (H.faults host.new) }
{
    host.sync(name)
}

fn sync_shadow<H: Host>(shadow: &mut Shadow<'_, H>) -> Result<(), HostFault>
    ensures same_host { shadow.new.host.ghost_name ≡ shadow.old.host.ghost_name }
    ensures whose { (H.faults shadow.new.host.now).whose ≡ (H.faults shadow.old.host.now).whose }
    ensures both { IsTrue H.tells → OnOk result (AreDurable (H.world shadow.new.host.now) shadow.old.twin.pairs.main ((H.world shadow.old.host.now).files shadow.old.twin.pairs.main.file)) }
{
    let name = shadow.twin.pairs.main.file.copied();
    sync_any(shadow, &name)
}

/// Syncs the database over a shadow of the host that is lent, by work that knows of no shadow: it still is the shadow of that host,
/// whatever this tells. After Ok a crash leaves the same of the file and of its twin.
pub fn sync_both<H: Host>(host: &mut H, twin: Twin) -> Result<(), HostFault>
    requires { twin.behind ≡ false → IsTrue H.tells → IsInStep twin.pairs (H.world host.old) }
    ensures whose { (H.faults host.new).whose ≡ (H.faults host.old).whose }
    ensures durable { IsTrue H.tells → OnOk result (AreDurable (H.world host.new) twin.pairs.main ((H.world host.old).files twin.pairs.main.file)) }
{
    let mut shadow = Shadow { host, twin };
    sync_shadow(&mut shadow)
}
