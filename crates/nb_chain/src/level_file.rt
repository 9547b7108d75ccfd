ghost use Rattle.std.specs.Prelude.{◌≡◌, ◌+◌, ◌≤◌, length, IsTrue, IfOk};
ghost use Rattle.nb_fields.specs.Places.{is_page_size};
ghost use Rattle.nb_page.specs.Quiet.{Quiet};
ghost use Rattle.nb_host.specs.Causes.{CountsDevice};
ghost use Rattle.nb_host.specs.Files.{bytes_of};
ghost use Rattle.nb_chain.specs.Level.{EndSays, PagesSay, LevelSays, WholeSays};
ghost use Rattle.nb_chain.specs.Most.{ReadsRoom, level_most};

use crate::overlay::Overlay;
use nb_host::{Fault, Host, Name};
use nb_level::{Item, LevelHead, LevelReader};
use std::alloc::Global;

/// Reads the pages of a level file that are still to come, and notes them.
fn read_pages<H: Host>(
    host: &mut H,
    reader: &mut LevelReader,
    page: &mut [u8],
    overlay: &mut Overlay,
) -> Result<(), Fault>
    requires { length page.old ≡ reader.old.head.page_size }
    ensures answer { IsTrue H.tells
        → PagesSay ((H.world host.old).files reader.old.name) reader.old overlay.old overlay.new (H.world host.old).reads (H.world host.new).reads result }
    ensures within { IsTrue H.tells → ReadsRoom (bytes_of ((H.world host.old).files reader.old.name)) reader.old (H.world host.old).reads (H.world host.new).reads }
    ensures quiet { Quiet (H.world host.old) (H.world host.new) }
    ensures cause { CountsDevice result (H.faults host.old) (H.faults host.new) }
{
    while let Item::PageAt(number) = reader.next(host, page)? {
        overlay.note(number, page)?;
    }
    Ok(())
}

/// Reads a level file from front to back, and notes its pages.
pub(crate) fn read_level<H: Host>(
    alloc: Global,
    host: &mut H,
    name: &Name,
    overlay: &mut Overlay,
) -> Result<LevelHead, Fault>
    ensures answer { IsTrue H.tells
        → LevelSays ((H.world host.old).files name.now) name.now overlay.old overlay.new (H.world host.old).reads (H.world host.new).reads result }
    ensures within { IsTrue H.tells → (H.world host.new).reads ≤ (H.world host.old).reads + level_most ((H.world host.old).files name.now) }
    ensures size { IfOk result (λ head. IsTrue (is_page_size head.page_size)) }
    ensures quiet { Quiet (H.world host.old) (H.world host.new) }
    ensures cause { CountsDevice result (H.faults host.old) (H.faults host.new) }
{
    let mut reader = LevelReader::start(alloc, host, name)?;
    let head = reader.head();
    let mut page = vec![in alloc; 0; head.page_size as usize]?;
    read_pages(host, &mut reader, &mut page, overlay)?;
    Ok(head)
}

/// Reads the pages of a level file that are still to come, up to its end.
fn read_to_end<H: Host>(
    host: &mut H,
    reader: &mut LevelReader,
    page: &mut [u8],
) -> Result<(), Fault>
    requires { length page.old ≡ reader.old.head.page_size }
    ensures answer { IsTrue H.tells
        → EndSays ((H.world host.old).files reader.old.name) reader.old (H.world host.old).reads (H.world host.new).reads result }
    ensures within { IsTrue H.tells → ReadsRoom (bytes_of ((H.world host.old).files reader.old.name)) reader.old (H.world host.old).reads (H.world host.new).reads }
    ensures quiet { Quiet (H.world host.old) (H.world host.new) }
    ensures cause { CountsDevice result (H.faults host.old) (H.faults host.new) }
{
    while let Item::PageAt(_) = reader.next(host, page)? {}
    Ok(())
}

/// Reads a level file from front to back, once, and answers its head. It changes nothing.
///
/// The refusal is `NoFile`, where there is none, or `BadLevel`, with the first place that is broken. It takes memory for
/// two pages.
pub fn whole<H: Host>(alloc: Global, host: &mut H, file: &Name) -> Result<LevelHead, Fault>
    ensures answer { IsTrue H.tells
        → WholeSays ((H.world host.old).files file.now) file.now (H.world host.old).reads (H.world host.new).reads result }
    ensures within { IsTrue H.tells → (H.world host.new).reads ≤ (H.world host.old).reads + level_most ((H.world host.old).files file.now) }
    ensures size { IfOk result (λ head. IsTrue (is_page_size head.page_size)) }
    ensures quiet { Quiet (H.world host.old) (H.world host.new) }
    ensures cause { CountsDevice result (H.faults host.old) (H.faults host.new) }
{
    let mut reader = LevelReader::start(alloc, host, file)?;
    let head = reader.head();
    let mut page = vec![in alloc; 0; head.page_size as usize]?;
    read_to_end(host, &mut reader, &mut page)?;
    Ok(head)
}
