// A page is read from the file that owns it.
ghost use Rattle.std.specs.Prelude.{◌≡◌, ◌++◌, ◌+◌, ◌<◌, ◌≤◌, ℕ, List, length, take, drop, IsTrue, OnOk, Some, None};
ghost use Rattle.nb_fields.specs.Places.{is_page_size};
ghost use Rattle.nb_fields.specs.Header.{size_of};
ghost use Rattle.nb_host.specs.Causes.{CountsFault};
ghost use Rattle.nb_host.specs.Files.{bytes_of};
ghost use Rattle.nb_model.specs.Causes.{not_database};
ghost use Rattle.nb_model.specs.Image.{image_in};
ghost use Rattle.nb_model.specs.Owner.{delta_name, main_page, owned_page};
ghost use Rattle.nb_page.specs.Quiet.{Quiet};

use nb_delta::Delta;
use nb_host::{Host, HostFault, Name};

/// Reads page `number` of a main file, and zeros where the file ends before it.
pub fn read_page<H: Host>(
    host: &mut H,
    name: &Name,
    number: u32,
    into: &mut [u8],
) -> Result<(), HostFault>
    requires size { IsTrue (is_page_size (length into.old)) }
    ensures page { (bytes : List ℕ) → IsTrue H.tells → (H.world host.old).files name.now ≡ Some bytes → not_database bytes ≡ None → size_of bytes ≡ length into.old
        → OnOk result (into.new ≡ main_page (length into.old) (image_in bytes) number) }
    ensures quiet { Quiet (H.world host.old) (H.world host.new) }
    ensures reads { IsTrue H.tells → (H.world host.new).reads ≤ (H.world host.old).reads + 1 }
    ensures cause { CountsFault result (H.faults host.old) (H.faults host.new) }
{
    if !host.read_page(name, number, into)? {
        into.fill(0);
    }
    Ok(())
}

/// Replaces the first 64 bytes of a page by those of the main file, which hold its header.
pub fn read_front<H: Host>(host: &mut H, name: &Name, into: &mut [u8]) -> Result<(), HostFault>
    requires size { 64 ≤ length into.old }
    ensures page { (bytes : List ℕ) → IsTrue H.tells → (H.world host.old).files name.now ≡ Some bytes → 64 ≤ length bytes → OnOk result (into.new ≡ take 64 bytes ++ drop 64 into.old) }
    ensures quiet { Quiet (H.world host.old) (H.world host.new) }
    ensures reads { IsTrue H.tells → (H.world host.new).reads ≤ (H.world host.old).reads + 1 }
    ensures cause { CountsFault result (H.faults host.old) (H.faults host.new) }
{
    let mut front = [0u8; 64];
    host.read_at(name, 0, &mut front)?;
    into[..64].copy_from_slice(&front);
    Ok(())
}

/// Reads page `number` of the database: from the slot of its entry, or from the main file where it has none. Page 0 has its first 64
/// bytes from the main file.
pub fn read_owned<H: Host>(
    host: &mut H,
    name: &Name,
    delta: &mut Delta,
    number: u32,
    into: &mut [u8],
) -> Result<(), HostFault>
    requires size { length into.old ≡ delta.old.page_size }
    requires page { IsTrue (is_page_size (length into.old)) }
    ensures page { (bytes : List ℕ) → IsTrue H.tells → (H.world host.old).files name.now ≡ Some bytes → not_database bytes ≡ None → size_of bytes ≡ length into.old → delta.old.name ≡ delta_name name.now
        → OnOk result (into.new ≡ owned_page (length into.old) (image_in bytes) (bytes_of ((H.world host.old).files (delta_name name.now))) delta.old.entries number) }
    ensures same { delta.new ≡ delta.old }
    ensures quiet { Quiet (H.world host.old) (H.world host.new) }
    ensures reads { IsTrue H.tells → 0 < number → (H.world host.new).reads ≤ (H.world host.old).reads + 1 }
    ensures first_reads { IsTrue H.tells → (H.world host.new).reads ≤ (H.world host.old).reads + 2 }
    ensures cause { CountsFault result (H.faults host.old) (H.faults host.new) }
{
    match delta.slot_of(host, number)? {
        Some(slot) => {
            delta.read_slot(host, slot, into)?;
            if number == 0 {
                read_front(host, name, into)?;
            }
            Ok(())
        }
        None => {
            read_page(host, name, number, into)?;
            Ok(())
        }
    }
}
