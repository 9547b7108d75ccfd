ghost use Rattle.std.specs.Prelude.{◌≡◌, ◌+◌, ◌<◌, ◌≤◌, ◌^◌, false, length, Contains, IsTrue, IfOk};
ghost use Rattle.nb_host.specs.Causes.{CountsDevice, CountsFault};
ghost use Rattle.nb_host.specs.Files.{bytes_of};
ghost use Rattle.nb_model.specs.Levels.{begins_level};
ghost use Rattle.nb_page.specs.Quiet.{Quiet};
ghost use Rattle.nb_catalog.specs.Answers.{Says};
ghost use Rattle.nb_catalog.specs.declared.entry.Entry.{Entry};
ghost use Rattle.nb_catalog.specs.Chained.{IsChained};
ghost use Rattle.nb_catalog.specs.Plans.{points};
ghost use Rattle.nb_catalog.specs.Heads.{read_file, read_files};
ghost use Rattle.nb_catalog.specs.Reads.{all_reads, file_most, files_most, reads_of};

use crate::Catalogue;
use nb_chain::{read_first, whole};
use nb_host::{Fault, Host, HostFault, Name};
use nb_level::{LevelHead, begins_level};
use nb_page::Header;
use std::alloc::Global;

/// Whether a file begins as a level file does. One that isn't there doesn't.
fn is_level<H: Host>(host: &mut H, name: &Name) -> Result<bool, HostFault>
    ensures answer { IsTrue H.tells → IfOk result (λ is. is ≡ begins_level (bytes_of ((H.world host.old).files name.now))) }
    ensures quiet { Quiet (H.world host.old) (H.world host.new) }
    ensures reads { IsTrue H.tells → (H.world host.new).reads ≤ (H.world host.old).reads + 1 }
    ensures cause { CountsFault result (H.faults host.old) (H.faults host.new) }
{
    let mut first = [0; 4];
    let got = host.read_at(name, 0, &mut first)?;
    Ok(begins_level(&first[..got]))
}

/// Reads the header of whole pages, and answers it as the head of level 0.
fn read_whole<H: Host>(alloc: Global, host: &mut H, name: &Name) -> Result<LevelHead, Fault>
    ensures answer { IsTrue H.tells → begins_level (bytes_of ((H.world host.old).files name.now)) ≡ false → Says (read_file name.now ((H.world host.old).files name.now)) result }
    ensures quiet { Quiet (H.world host.old) (H.world host.new) }
    ensures reads { IsTrue H.tells → IfOk result (λ head. (H.world host.new).reads ≤ (H.world host.old).reads + 1) }
    ensures once { IsTrue H.tells → begins_level (bytes_of ((H.world host.old).files name.now)) ≡ false → (H.world host.new).reads ≤ (H.world host.old).reads + 1 }
    ensures cause { CountsDevice result (H.faults host.old) (H.faults host.new) }
{
    let Header {
        guid,
        page_size,
        scn,
        ..
    } = read_first(alloc, host, name)?.header;
    Ok(LevelHead {
        level: 0,
        guid,
        previous: [0; 16],
        page_size,
        scn: scn - 1,
        previous_scn: 0,
    })
}

/// Reads a file, and answers its head.
fn read_head<H: Host>(alloc: Global, host: &mut H, name: &Name) -> Result<LevelHead, Fault>
    ensures answer { IsTrue H.tells → Says (read_file name.now ((H.world host.old).files name.now)) result }
    ensures quiet { Quiet (H.world host.old) (H.world host.new) }
    ensures reads { IsTrue H.tells → IfOk result (λ head. (H.world host.new).reads ≤ (H.world host.old).reads + reads_of ((H.world host.old).files name.now)) }
    ensures within { IsTrue H.tells → (H.world host.new).reads ≤ (H.world host.old).reads + file_most ((H.world host.old).files name.now) }
    ensures cause { CountsDevice result (H.faults host.old) (H.faults host.new) }
{
    if is_level(host, name)? {
        whole(alloc, host, name)
    } else {
        read_whole(alloc, host, name)
    }
}

/// Reads backup files, and answers the catalogue of them. It changes nothing.
///
/// The refusals are `NoFile` and `BadLevel`, with the first broken place, for each file in order, so the first that applies is
/// answered. A file that begins as a level file is read once from front to back. Any other is taken as level 0, which is
/// `BadLevel` at 0 where it doesn't begin with a header, at 22 where its state isn't 1, and at its length where that isn't 5 to
/// 1,048,576 whole pages; of it the first 64 bytes are read, and of each file the first 4 before. No file is read again, whatever is
/// answered. It takes memory for a head of each file and for two pages.
pub fn catalogue<H: Host>(alloc: Global, host: &mut H, files: &[Name]) -> Result<Catalogue, Fault>
    requires few { length files.now < 2 ^ 32 }
    ensures answer { IsTrue H.tells → Says (read_files (H.world host.old).files files.now) result }
    ensures each { IfOk result (λ heads. length heads ≡ length files.now) }
    ensures chained { IsTrue H.tells → IfOk result (λ heads. (e : Entry) → Contains (points heads) e → IsChained (H.world host.old).files files.now heads e) }
    ensures quiet { Quiet (H.world host.old) (H.world host.new) }
    ensures reads { IsTrue H.tells → IfOk result (λ heads. (H.world host.new).reads ≤ (H.world host.old).reads + all_reads (H.world host.old).files files.now) }
    ensures within { IsTrue H.tells → (H.world host.new).reads ≤ (H.world host.old).reads + files_most (H.world host.old).files files.now }
    ensures cause { CountsDevice result (H.faults host.old) (H.faults host.new) }
{
    let mut catalogue = Catalogue::new(alloc);
    for name in files {
        let head = read_head(alloc, host, name)?;
        catalogue.add(head)?;
    }
    Ok(catalogue)
}
