// Which file it is, and how it stood when it was looked at.
ghost use Rattle.std.specs.Prelude.{◌≡◌};

use std::fs::Metadata;
use std::os::unix::fs::MetadataExt;

/// Which file it is, and how it stood: a program that writes the file changes its length or its times.
#[derive(Clone, Copy)]
pub struct Stamp {
    device: u64,
    inode: u64,
    /// In bytes.
    length: u64,
    /// When its bytes were changed last, and when anything of it was: in seconds and nanoseconds of the system's clock.
    written: (i64, i64),
    changed: (i64, i64),
}

impl Stamp {
    pub fn of(found: &Metadata) -> Stamp {
        Stamp {
            device: found.dev(),
            inode: found.ino(),
            length: found.len(),
            written: (found.mtime(), found.mtime_nsec()),
            changed: (found.ctime(), found.ctime_nsec()),
        }
    }

    /// Whether it is the same file, changed or not.
    pub fn is_of(&self, other: &Stamp) -> bool {
        self.device == other.device && self.inode == other.inode
    }

    /// Whether it is the same file, and nothing of it has changed.
    pub fn is_same(&self, other: &Stamp) -> bool {
        self.is_of(other)
            && self.length == other.length
            && self.written == other.written
            && self.changed == other.changed
    }

    /// The numbers of the device and of the inode.
    pub fn node(&self) -> (u64, u64)
        ensures { result ≡ (self.now.device, self.now.inode) }
    {
        (self.device, self.inode)
    }
}
