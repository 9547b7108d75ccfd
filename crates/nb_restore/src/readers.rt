ghost use Rattle.std.specs.Prelude.{◌≡◌, ◌+◌, ◌-◌, ◌≤◌, ℕ, IsTrue, IfOk, List, length, drop};
ghost use Rattle.nb_host.specs.Answers.{IsGiven};
ghost use Rattle.nb_host.specs.Causes.{CountsDevice};
ghost use Rattle.nb_model.specs.Restoring.{Link};
ghost use Rattle.nb_page.specs.Quiet.{Quiet};
ghost use Rattle.nb_restore.specs.Sources.{AreOfPages, AreReady, AreSources, IsReady, IsSource};

use nb_host::{Fault, Host, Name, Refusal};
use nb_level::LevelReader;
use std::alloc::Global;

/// Begins to read a level file whose pages have that size. The refusals are `NoFile`, `BadLevel` and `ChainSize`.
fn start_reader<H: Host>(
    alloc: Global,
    host: &mut H,
    name: &Name,
    page_size: u32,
) -> Result<LevelReader, Fault>
    ensures ready { IsTrue H.tells → (target : List ℕ) (link : Link) → IsSource (H.world host.old).files target name.now page_size link → IsGiven result (IsReady (H.world host.old).files target page_size link) }
    ensures size { IfOk result (λ reader. reader.head.page_size ≡ page_size) }
    ensures quiet { Quiet (H.world host.old) (H.world host.new) }
    ensures once { IsTrue H.tells → (H.world host.new).reads ≤ (H.world host.old).reads + 1 }
    ensures cause { CountsDevice result (H.faults host.old) (H.faults host.new) }
{
    let reader = LevelReader::start(alloc, host, name)?;
    let found = reader.head().page_size;
    if found != page_size {
        return Err(Fault::Refused(Refusal::ChainSize {
            name: name.copied(),
            found,
            wanted: page_size,
        }));
    }
    Ok(reader)
}

/// Begins to read the files after the first. It takes memory for a page of each.
pub(crate) fn start_readers<H: Host>(
    alloc: Global,
    host: &mut H,
    files: &[Name],
    page_size: u32,
) -> Result<Vec<LevelReader>, Fault>
    requires { length files.now ≤ 10 }
    ensures ready { IsTrue H.tells → (target : List ℕ) (links : List Link) → AreSources (H.world host.old).files target (drop 1 files.now) page_size links
        → IsGiven result (λ readers. AreReady (H.world host.old).files target page_size links readers.items) }
    ensures size { IfOk result (λ readers. AreOfPages page_size readers.items) }
    ensures quiet { Quiet (H.world host.old) (H.world host.new) }
    ensures within { IsTrue H.tells → (H.world host.new).reads ≤ (H.world host.old).reads + (length files.now - 1) }
    ensures cause { CountsDevice result (H.faults host.old) (H.faults host.new) }
{
    let mut readers = Vec::new(alloc);
    for place in 1..files.len() {
        let reader = start_reader(alloc, host, &files[place], page_size)?;
        readers.push(reader)?;
    }
    Ok(readers)
}
