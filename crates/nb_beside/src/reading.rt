// Files as a look has them: they are found, opened and read, and no call changes one.
use std::fs::{self, File, Metadata};
use std::os::unix::fs::FileExt;
use std::rt::Files;
use std::time::UNIX_EPOCH;

/// What is known of a regular file before it is opened.
#[derive(Clone, Copy)]
pub struct Found {
    /// In bytes.
    pub length: u64,
    /// When it was written last, in seconds since the start of 1970, as far as the system tells.
    pub written: Option<u64>,
}

/// Files that are only read, without a lock. It is all that a look has of the system's files, so no look can change one.
pub trait ReadOnly {
    /// A file that is open to be read.
    type Opened: Drop;

    /// The regular file of that name, and none where there is no such file or it can't be looked at.
    fn find(&self, name: &str) -> Option<Found>;

    /// Whether something has that name. Where that can't be told it answers false.
    fn is_taken(&self, name: &str) -> bool;

    /// Opens the file of that name, if it can be read.
    fn open(&self, name: &str) -> Option<Self::Opened>;

    /// Fills `into` with the bytes from that place on. Where the file ends before, or can't be read, it answers false.
    fn read(&self, file: &Self::Opened, at: u64, into: &mut [u8]) -> bool;
}

fn written(found: &Metadata) -> Option<u64> {
    let at = found.modified().ok()?;
    let since = at.duration_since(UNIX_EPOCH).ok()?;
    Some(since.as_secs())
}

/// The system's files. Nothing else in this crate has them in its hands.
impl<R: Files> ReadOnly for R
where
    R::File: FileExt,
{
    type Opened = R::File;

    fn find(&self, name: &str) -> Option<Found> {
        let found = fs::symlink_metadata(self, name).ok()?;
        if !found.is_file() {
            return None;
        }
        Some(Found {
            length: found.len(),
            written: written(&found),
        })
    }

    fn is_taken(&self, name: &str) -> bool {
        fs::exists(self, name).unwrap_or(false)
    }

    fn open(&self, name: &str) -> Option<R::File> {
        File::open(self, name).ok()
    }

    fn read(&self, file: &R::File, at: u64, into: &mut [u8]) -> bool {
        file.read_exact_at(into, at).is_ok()
    }
}
