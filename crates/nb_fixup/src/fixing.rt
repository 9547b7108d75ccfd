ghost use Rattle.std.specs.Prelude.{◌≢◌, ◌+◌, ◌≤◌, IfErr, IsTrue, length};
ghost use Rattle.nb_host.specs.Causes.{CountsDevice};
ghost use Rattle.nb_host.specs.declared.faults.Fault.TheVariants.{Memory as MemoryFault};
ghost use Rattle.nb_fixup.specs.Fixup.{Fixes};

use crate::copy::read_copy;
use nb_fields::layouts::header;
use nb_host::{Fault, Host, Name};
use nb_restore::write_first;

/// How many bytes the largest page has.
const MOST_PAGE_SIZE: usize = 32_768;

/// Takes a copy of a stalled database to the normal state, in place. The copy may come from any tool that copied the main file
/// as it was while the database was stalled.
///
/// The state in its header becomes 0, and no other byte changes. It is kept for good before the call answers. From then on the
/// file is a database of its own: its image is that of its whole pages, without pages of zeros at the end.
///
/// The refusals are, in this order: `NoFile`; `NotDatabase`, with the first page that breaks the form; `WrongState`, where the
/// state isn't 1; and `DeltaPresent`, where a difference file stands beside it, as it does beside the stalled database itself.
/// A refused call changes nothing. No call wants memory.
///
/// A crash, and an answer of `Device`, leave the file as it was, or fixed.
pub fn fix_up<H: Host>(host: &mut H, name: &Name) -> Result<(), Fault>
    requires { length name.now ≤ 94 }
    ensures fixes { IsTrue H.tells → Fixes result (H.world host.old) (H.world host.new) name.now }
    ensures no_memory { IfErr result (λ fault. fault ≢ MemoryFault) }
    ensures reads { IsTrue H.tells → (H.world host.new).reads ≤ (H.world host.old).reads + 1 }
    ensures cause { CountsDevice result (H.faults host.old) (H.faults host.new) }
{
    let mut first = [0; MOST_PAGE_SIZE];
    let size = read_copy(host, name, &mut first)?;
    let page = &mut first[..size as usize];
    header::State::put(page, 0);
    write_first(host, name, page)?;
    Ok(())
}
