ghost use Rattle.std.specs.Prelude.{◌≡◌, ◌⊎◌, ◌++◌, ◌*◌, ◌/◌, ◌%◌, ◌<◌, ◌≤◌, [], length, IsTrue};
ghost use Rattle.nb_fields.specs.Bytes.{bytes_of};
ghost use Rattle.nb_host.specs.Calls.{AppendsBytes, IsSilent};
ghost use Rattle.nb_host.specs.Moments.{Passes};
ghost use Rattle.nb_host.specs.Causes.{CountsFault};
ghost use Rattle.nb_model.specs.Levels.{head_then, end_bytes};
ghost use Rattle.nb_level.specs.Adding.{AddsTwo};
ghost use Rattle.nb_level.specs.Heads.{head_of};

use crate::LevelHead;
use crate::adding::append_two;
use crate::head::head_bytes;
use crate::steps::END_MARK;
use nb_fields::put_number;
use nb_host::{Host, HostFault, Name};

/// Appends the head of a level file, of version 101 or 102.
pub fn write_head<H: Host>(
    host: &mut H,
    name: &Name,
    head: &LevelHead,
    version: u16,
) -> Result<(), HostFault>
    requires { (version ≡ 101) ⊎ (version ≡ 102) }
    ensures files { AppendsBytes H.tells result (H.world host.old) (H.world host.new) name.now (head_then version (head_of head.now) []) }
    ensures log { IsSilent (H.world host.old) (H.world host.new) }
    ensures time { Passes (H.world host.old) (H.world host.new) }
    ensures cause { CountsFault result (H.faults host.old) (H.faults host.new) }
{
    let bytes = head_bytes(head, version);
    host.append(name, &bytes)
}

/// Appends a page with its number, as version 101 has it.
pub fn write_page_at<H: Host>(
    host: &mut H,
    name: &Name,
    number: u32,
    page: &[u8],
) -> Result<(), HostFault>
    ensures adds { IsTrue H.tells → AddsTwo result (H.world host.old) (H.world host.new) name.now (bytes_of 4 number) page.now }
    ensures log { IsSilent (H.world host.old) (H.world host.new) }
    ensures cause { CountsFault result (H.faults host.old) (H.faults host.new) }
{
    append_two(host, name, &number_bytes(number), page)
}

/// Appends a run of 1 to 16 pages, the first of which has that number, as version 102 has it.
pub fn write_run<H: Host>(
    host: &mut H,
    name: &Name,
    first: u32,
    page_size: u32,
    pages: &[u8],
) -> Result<(), HostFault>
    requires size { 0 < page_size }
    requires whole { length pages.now % page_size ≡ 0 }
    requires some { page_size ≤ length pages.now }
    requires few { length pages.now ≤ 16 * page_size }
    ensures adds { IsTrue H.tells → AddsTwo result (H.world host.old) (H.world host.new) name.now (bytes_of 4 first ++ bytes_of 4 (length pages.now / page_size)) pages.now }
    ensures log { IsSilent (H.world host.old) (H.world host.new) }
    ensures cause { CountsFault result (H.faults host.old) (H.faults host.new) }
{
    let count = pages.len() / page_size as usize;
    append_two(host, name, &two_numbers(first, count as u32), pages)
}

/// Appends the end of a level file of so many pages.
#[tactic(auto, unfolding(nb_model::specs::Levels::end_bytes))]
pub fn write_end<H: Host>(host: &mut H, name: &Name, count: u32) -> Result<(), HostFault>
    ensures files { AppendsBytes H.tells result (H.world host.old) (H.world host.new) name.now (end_bytes count) }
    ensures log { IsSilent (H.world host.old) (H.world host.new) }
    ensures time { Passes (H.world host.old) (H.world host.new) }
    ensures cause { CountsFault result (H.faults host.old) (H.faults host.new) }
{
    host.append(name, &two_numbers(END_MARK, count))
}

/// The bytes of a number.
#[tactic(auto, unfolding(nb_fields::specs::Bytes::bytes_of))]
fn number_bytes(number: u32) -> [u8; 4]
    ensures { result ≡ bytes_of 4 number }
{
    let mut bytes = [0; 4];
    put_number(&mut bytes, 0, 4, u64::from(number));
    bytes
}

/// The bytes of two numbers.
#[tactic(auto, unfolding(nb_fields::specs::Bytes::bytes_of))]
fn two_numbers(first: u32, second: u32) -> [u8; 8]
    ensures { result ≡ bytes_of 4 first ++ bytes_of 4 second }
{
    let mut bytes = [0; 8];
    put_number(&mut bytes, 0, 4, u64::from(first));
    put_number(&mut bytes, 4, 4, u64::from(second));
    bytes
}
