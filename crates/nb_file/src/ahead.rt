// Reading ahead: where a file is read in sequence, more of it is fetched than was asked for.
ghost use Rattle.std.specs.Prelude.{◌≡◌, ◌+◌, ◌-◌, ◌≤◌, IsTrue, true, false, length, take, drop, OnOk};
ghost use Rattle.nb_file.specs.Fetched.{IsPart};

use crate::disk::Disk;
use std::alloc::Global;
use std::io;

/// How many bytes are fetched at a time.
pub const MOST_AHEAD: usize = 262_144;

// After how many bytes in sequence more is fetched than was asked for.
const IN_SEQUENCE: u64 = 65_536;

/// A part of a file that was fetched, and how the file was read last.
#[derive(Drop)]
pub struct Ahead {
    /// Where the part stands in the file, in bytes.
    at: u64,
    bytes: Vec<u8>,
    /// The part is so many of the bytes.
    count: usize,
    /// Where the last read ended, and how many bytes were read in sequence up to there.
    next: u64,
    run: u64,
    ghost within: { count ≤ length bytes.items },
}

impl Ahead {
    pub fn new(alloc: Global) -> Ahead
        ensures { result.count ≡ 0 }
    {
        Ahead {
            at: 0,
            bytes: Vec::new(alloc),
            count: 0,
            next: 0,
            run: 0,
        }
    }

    /// Forgets the part, since the file changes. No part is fetched again until the file was read in sequence for so long
    /// that it pays.
    pub fn forget(&mut self)
        ensures { self.new.count ≡ 0 }
    {
        self.count = 0;
        self.run = 0;
    }

    /// Whether so many bytes from that place were fetched.
    pub fn has(&self, at: u64, count: usize) -> bool
        ensures { result ≡ true → (self.now.at ≤ at) × (at - self.now.at + count ≤ self.now.count) }
    {
        let end = self.at.saturating_add(self.count as u64);
        self.at <= at && at <= end && count as u64 <= end - at
    }

    /// Fills `into` from what was fetched, and answers whether all of it was there. Else nothing is filled.
    pub fn give(&self, at: u64, into: &mut [u8]) -> bool
        ensures within { result ≡ true → (self.now.at ≤ at) × (at - self.now.at + length into.old ≤ self.now.count) }
        ensures given { result ≡ true → into.new ≡ take (length into.old) (drop (at - self.now.at) (take self.now.count self.now.bytes.items)) }
        ensures not_given { result ≡ false → into.new ≡ into.old }
    {
        if at < self.at || at - self.at > self.count as u64 {
            return false;
        }
        let start = (at - self.at) as usize;
        if into.len() > self.count - start {
            return false;
        }
        let part = &self.bytes[..self.count];
        into.copy_from_slice(&part[start..start + into.len()]);
        true
    }

    /// Whether more than so many bytes from that place are to be fetched.
    pub fn is_due(&self, at: u64, count: usize) -> bool {
        at == self.next && self.run >= IN_SEQUENCE && count < MOST_AHEAD
    }

    /// Notes that so many bytes were read from that place.
    pub fn note(&mut self, at: u64, count: usize)
        ensures { (self.new.at ≡ self.old.at) × (self.new.count ≡ self.old.count) × (self.new.bytes ≡ self.old.bytes) }
    {
        self.run = if at == self.next {
            self.run.saturating_add(count as u64)
        } else {
            count as u64
        };
        self.next = at.saturating_add(count as u64);
    }

    /// Fetches what the file has from that place on, as far as there is room. The file ends at `len`.
    pub fn fill<F: Disk>(&mut self, file: &F, at: u64, len: u64) -> io::Result<()>
        ensures part { IsTrue F.tells → IsPart self.new.at (take self.new.count self.new.bytes.items) (F.bytes file.now) }
    {
        self.count = 0;
        self.make_room()?;
        let count = len.saturating_sub(at).min(MOST_AHEAD as u64) as usize;
        self.fetch(file, at, count)
    }

    fn make_room(&mut self) -> io::Result<()>
        ensures room { OnOk result (262144 ≤ length self.new.bytes.items) }
        ensures same { self.new.count ≡ self.old.count }
    {
        if self.bytes.len() < MOST_AHEAD {
            self.bytes.resize(MOST_AHEAD, 0)?;
        }
        Ok(())
    }

    fn fetch<F: Disk>(&mut self, file: &F, at: u64, count: usize) -> io::Result<()>
        requires room { count ≤ length self.old.bytes.items }
        requires none { self.old.count ≡ 0 }
        ensures part { IsTrue F.tells → IsPart self.new.at (take self.new.count self.new.bytes.items) (F.bytes file.now) }
    {
        fetch_front(file, at, count, &mut self.bytes)?;
        self.at = at;
        self.count = count;
        Ok(())
    }
}

fn fetch_front<F: Disk>(file: &F, at: u64, count: usize, into: &mut [u8]) -> io::Result<()>
    requires { count ≤ length into.old }
    ensures { IsTrue F.tells → OnOk result (take count into.new ≡ take count (drop at (F.bytes file.now))) }
{
    file.fetch(at, &mut into[..count])
}
