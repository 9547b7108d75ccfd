ghost use Rattle.std.specs.Prelude.{◌+◌, ◌≤◌, length, IsTrue};
ghost use Rattle.nb_chain.specs.Most.{RefusedReads, chain_most};
ghost use Rattle.nb_host.specs.Causes.{CountsDevice};
ghost use Rattle.nb_restore.specs.Most.{restore_most};
ghost use Rattle.nb_restore.specs.Restore.{Restores};

use crate::plan::{Plan, prepare};
use crate::target::write_target;
use nb_host::{Fault, Host, Name};
use std::alloc::Global;

/// How long the pieces are in which level 0 is copied, in bytes.
const PIECE: usize = 262_144;

/// Restores a chain of 1 to 10 backup files into a new database, and answers how many pages that has.
///
/// The database is the image of the chain in the normal state: the pages of level 0, with the pages of each further level
/// written over in their order, zeros between where a page lies past the end, and no pages of zeros at the end. Its file is
/// as long as level 0, or as the last page of a level reaches, pages of zeros among them. It is kept for good before the call
/// answers.
///
/// The refusals are `FileExists`, where the target's name isn't free, and then those of `nb_chain::check`, in its order. A
/// refused call changes nothing, and reads no file more often than `nb_chain::check` does. Neither does one that answers `Memory`: all memory is taken before the target is made.
///
/// Whatever it answers, level 0 is read once, by pieces of 256 KiB, but for its start and for the pages of zeros at its end, and each
/// level file twice, page by page.
///
/// A crash, and an answer of `Device`, leave the target as it was, or such that its name is free for another restore, or
/// whole. Until then it can't be opened.
pub fn restore<H: Host>(
    alloc: Global,
    host: &mut H,
    target: &Name,
    files: &[Name],
) -> Result<u32, Fault>
    requires some { 1 ≤ length files.now }
    requires few { length files.now ≤ 10 }
    ensures restores { IsTrue H.tells → Restores result (H.world host.old) (H.world host.new) target.now files.now }
    ensures refused { IsTrue H.tells → RefusedReads result (H.world host.old).reads (1 + chain_most (H.world host.old).files files.now) (H.world host.new).reads }
    ensures within { IsTrue H.tells → (H.world host.new).reads ≤ (H.world host.old).reads + restore_most (H.world host.old).files files.now }
    ensures cause { CountsDevice result (H.faults host.old) (H.faults host.new) }
{
    let mut piece = vec![in alloc; 0; PIECE]?;
    let Plan {
        count,
        pages,
        mut first,
        mut page,
        readers,
    } = prepare(alloc, host, target, files)?;
    write_target(
        host, target, &files[0], pages, readers, &mut first, &mut page, &mut piece,
    )?;
    Ok(count)
}
