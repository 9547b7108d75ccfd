// How a file of pages grows: by whole pages, whatever fails.
ghost use Rattle.std.specs.Prelude.{◌≡◌, ◌+◌, ◌<◌, ◌^◌, IsTrue, length, OnOk, OnErr};
ghost use Rattle.nb_host.specs.Files.{put_at};
ghost use Rattle.nb_file.specs.Resized.{IsSameUpTo};
ghost use Rattle.nb_file.specs.Whole.{IsWhole};

use crate::disk::Disk;
use std::io;

/// Puts the bytes into a file of `len` bytes, in pieces of that length: pages, or single bytes.
///
/// Where pages end after the file, it is made longer first, by a call of the system that does all or nothing, so that no part of a page
/// is ever its end: not where the disk fills up or a limit is met within the bytes, nor where a crash cuts them off. Where they can't be put, the
/// file gets its length back; where that fails too, whole pages stand after it, of zeros from where the write stopped.
pub fn put_whole<F: Disk>(
    file: &mut F,
    len: u64,
    at: u64,
    bytes: &[u8],
    piece: u64,
) -> io::Result<()>
    requires some { 0 < piece }
    requires within { at + length bytes.now < 2 ^ 64 }
    requires whole { IsWhole piece (at + length bytes.now) }
    requires measured { IsTrue F.tells → len ≡ length (F.bytes file.old) }
    ensures bytes { IsTrue F.tells → OnOk result (F.bytes file.new ≡ put_at (F.bytes file.old) at bytes.now) }
    ensures whole { IsTrue F.tells → IsWhole piece (length (F.bytes file.old)) → IsWhole piece (length (F.bytes file.new)) }
    // Where one call alone failed, no part of what was to be added is left.
    ensures undone { IsTrue F.tells → 1 < piece → OnErr result (F.failed file.new ≡ F.failed file.old + 1 → IsSameUpTo at (F.bytes file.old) (F.bytes file.new)) }
{
    let end = at + bytes.len() as u64;
    if piece == 1 || end <= len {
        return file.put(at, bytes);
    }
    file.resize(end)?;
    match file.put(at, bytes) {
        Ok(()) => Ok(()),
        Err(error) => {
            // Where this fails too, the file is whole pages long all the same.
            let _ = file.resize(len);
            Err(error)
        }
    }
}
