// One open file, as the system gives it.
ghost use Rattle.std.specs.Prelude.{◌≡◌, ◌+◌, ◌≤◌, ℕ, Bool, true, false, IsTrue, List, [], length, take, drop, is_ok, if◌then◌else◌, IfOk, OnOk, OnErr};
ghost use Rattle.nb_host.specs.Files.{put_at};
ghost use Rattle.nb_file.specs.Resized.{resized, IsBegun};

use crate::stamp::Stamp;
use std::fs::{File, OpenFile, TryLockError};
use std::io;
use std::os::unix::fs::FileExt;

/// Who else may have the file open under a lock of its own.
#[derive(Clone, Copy)]
pub enum Sharing {
    /// Those who only read it.
    Readers,
    NoOne,
}

/// An open file: its bytes, whether they are kept for good, and a lock.
///
/// A file of the system tells nothing of its bytes, so what a clause says of them is proved of what the program does
/// with a file that does what it says.
pub trait Disk {
    /// Whether it tells what it holds.
    ghost tells: { Bool };

    /// Its bytes as they read.
    ghost bytes: { Self → List ℕ };

    /// Whether a crash leaves these bytes.
    ghost is_durable: { Self → Bool };

    /// How many of the calls that change it have failed.
    ghost failed: { Self → ℕ };

    /// Its length in bytes, and nothing of what is no file: a folder, a FIFO, a device.
    fn measure(&self) -> io::Result<u64>
        ensures { IsTrue tells → IfOk result (λ len. len ≡ length (bytes self.now)) };

    /// Which file it is, and how it stands.
    fn stamp(&self) -> io::Result<Stamp>;

    /// Locks it as long as it is open. Answers whether nobody else has it open otherwise.
    fn lock(&self, sharing: Sharing) -> io::Result<bool>;

    /// Fills `into` from `at` on. Where the file ends before, it fails.
    fn fetch(&self, at: u64, into: &mut [u8]) -> io::Result<()>
        ensures bytes { IsTrue tells → OnOk result (into.new ≡ take (length into.old) (drop at (bytes self.now))) }
        ensures there { IsTrue tells → OnOk result (at + length into.old ≤ length (bytes self.now)) };

    /// Puts all the bytes at that place. Where the file is shorter, zeros stand between. Where that fails, a front of them may be there.
    fn put(&mut self, at: u64, new: &[u8]) -> io::Result<()>
        ensures put { IsTrue tells → OnOk result (bytes self.new ≡ put_at (bytes self.old) at new.now) }
        ensures begun { IsTrue tells → OnErr result (IsBegun (bytes self.old) at new.now (bytes self.new)) }
        ensures failed { IsTrue tells → failed self.new ≡ if is_ok result then failed self.old else failed self.old + 1 };

    /// Makes it so many bytes long: cuts it off there, or puts zeros at its end. Where that fails, nothing has changed.
    fn resize(&mut self, len: u64) -> io::Result<()>
        ensures resized { IsTrue tells → OnOk result (bytes self.new ≡ resized (bytes self.old) len) }
        ensures same { IsTrue tells → OnErr result (bytes self.new ≡ bytes self.old) }
        ensures failed { IsTrue tells → failed self.new ≡ if is_ok result then failed self.old else failed self.old + 1 };

    /// Keeps its bytes for good.
    fn keep(&mut self) -> io::Result<()>
        ensures same { IsTrue tells → bytes self.new ≡ bytes self.old }
        ensures durable { IsTrue tells → OnOk result (is_durable self.new ≡ true) };
}

impl Disk for File {
    ghost tells = { false };

    ghost bytes = { λ _. [] };

    ghost is_durable = { λ _. false };

    ghost failed = { λ _. 0 };

    fn measure(&self) -> io::Result<u64> {
        let found = self.metadata()?;
        if found.is_file() {
            Ok(found.len())
        } else {
            Err(no_file())
        }
    }

    fn stamp(&self) -> io::Result<Stamp> {
        Ok(Stamp::of(&self.metadata()?))
    }

    fn lock(&self, sharing: Sharing) -> io::Result<bool> {
        let outcome = match sharing {
            Sharing::Readers => self.try_lock_shared(),
            Sharing::NoOne => self.try_lock(),
        };
        match outcome {
            Ok(()) => Ok(true),
            Err(TryLockError::WouldBlock) => Ok(false),
            Err(TryLockError::Error(error)) => Err(error),
        }
    }

    fn fetch(&self, at: u64, into: &mut [u8]) -> io::Result<()> {
        self.read_exact_at(into, at)
    }

    fn put(&mut self, at: u64, new: &[u8]) -> io::Result<()> {
        self.write_all_at(new, at)
    }

    fn resize(&mut self, len: u64) -> io::Result<()> {
        self.set_len(len)
    }

    fn keep(&mut self) -> io::Result<()> {
        self.sync_data()
    }
}

/// What is under the name is a folder, a FIFO, a device or a symbolic link.
pub fn no_file() -> io::Error {
    io::Error::new(io::ErrorKind::Unsupported, "not a regular file")
}
