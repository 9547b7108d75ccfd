ghost use Rattle.std.specs.Prelude.{◌≡◌, ◌+◌, ◌≤◌, IsTrue, length, Some, IfOk, OnOk};
ghost use Rattle.nb_fields.specs.Free.{is_free_file, is_unfinished};
ghost use Rattle.nb_host.specs.Causes.{CountsFault};
ghost use Rattle.nb_page.specs.Free.{is_free_name, has_delta};
ghost use Rattle.nb_page.specs.Quiet.{Quiet};

use crate::read_header;
use nb_fields::are_zeros;
use nb_fields::layouts::header;
use nb_fields::states::APPLYING;
use nb_host::{Host, HostFault, MOST_BASE_NAME, Name};

/// Whether a restore was stopped in a file that begins so.
fn is_unfinished(first: &[u8]) -> bool
    ensures { result ≡ is_unfinished first.now }
{
    if first.len() < header::LENGTH {
        return false;
    }
    match read_header(first) {
        Some(header) => header.state == APPLYING && are_zeros(&header.pending),
        None => false,
    }
}

/// Whether a file may be made anew that begins so, with all of its bytes where it is shorter.
fn is_free_start(first: &[u8]) -> bool
    requires { length first.now ≤ 64 }
    ensures { result ≡ is_free_file (Some first.now) }
{
    are_zeros(first) || is_unfinished(first)
}

/// Whether a name is free to be taken for a new file. It changes nothing.
///
/// It is free where there is no such file, or its first 64 bytes (or all of a shorter one) are zeros, or they are the
/// header of a restore that was stopped. A name that a database may have is not free where a difference file stands
/// beside it.
pub fn is_free<H: Host>(host: &mut H, name: &Name) -> Result<bool, HostFault>
    ensures answer { IsTrue H.tells
        → IfOk result (λ free. free ≡ is_free_name (H.world host.old).files name.now) }
    ensures quiet { Quiet (H.world host.old) (H.world host.new) }
    ensures reads { IsTrue H.tells → OnOk result ((H.world host.new).reads ≡ (H.world host.old).reads + 1) }
    ensures once { IsTrue H.tells → (H.world host.new).reads ≤ (H.world host.old).reads + 1 }
    ensures cause { CountsFault result (H.faults host.old) (H.faults host.new) }
{
    let mut first = [0; header::LENGTH];
    let count = host.read_at(name, 0, &mut first)?;
    let has_delta = stands_beside(host, name)?;
    Ok(is_free_start(&first[..count]) && !has_delta)
}

/// Whether a difference file stands beside a name that a database may have.
#[tactic(auto, unfolding(crate::specs::Free::has_delta))]
fn stands_beside<H: Host>(host: &mut H, name: &Name) -> Result<bool, HostFault>
    ensures answer { IsTrue H.tells
        → IfOk result (λ beside. beside ≡ has_delta (H.world host.old).files name.now) }
    ensures quiet { Quiet (H.world host.old) (H.world host.new) }
    ensures reads { (H.world host.new).reads ≡ (H.world host.old).reads }
    ensures cause { CountsFault result (H.faults host.old) (H.faults host.new) }
{
    if name.as_str().len() > MOST_BASE_NAME {
        return Ok(false);
    }
    let size = host.size(&name.delta())?;
    Ok(size.is_some())
}
