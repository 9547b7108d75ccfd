// Bytes that wait to be written: adjacent writes are gathered and go out together.
ghost use Rattle.std.specs.Prelude.{◌≡◌, ◌≢◌, ◌+◌, ◌<◌, ℕ, List, length, Some, None, is_none, true, false, IfSome, OnOk, OnErr};
ghost use Rattle.nb_host.specs.Files.{put_at};
ghost use Rattle.nb_file.specs.Gathered.{seen, IsNext, IsFreeFor, is_owner};
ghost use Rattle.nb_file.specs.Whole.{IsWhole, AreOf};

use nb_host::Name;
use std::alloc::{AllocError, Global};

/// How long the parts of a file are, in bytes, that are written together. They begin at multiples of it, and the system takes a
/// write of a whole part with less work than one that lies across two.
const PART: usize = 262_144;

/// Bytes of one file that wait to be written at one place.
#[derive(Drop)]
pub struct Waiting {
    /// Whose they are; nothing waits where it is none.
    pub name: Option<Name>,
    pub at: u64,
    pub bytes: Vec<u8>,
    /// The length of the pieces that they are: of pages, or 1 where they are appended.
    pub piece: u64,
    ghost some: { 0 < piece },
    ghost whole: { name ≢ None → IsWhole piece (at + length bytes.items) },
}

impl Waiting {
    pub fn new(alloc: Global) -> Waiting
        ensures { result.name ≡ None }
    {
        Waiting {
            name: None,
            at: 0,
            bytes: Vec::new(alloc),
            piece: 1,
        }
    }

    pub fn is_empty(&self) -> bool
        ensures { result ≡ is_none self.now.name }
    {
        self.name.is_none()
    }

    /// Whether bytes of this file wait.
    pub fn is_for(&self, name: &Name) -> bool
        ensures { result ≡ is_owner self.now.name name.now }
    {
        match &self.name {
            Some(own) => own == name,
            None => false,
        }
    }

    /// Where what waits ends in the file, in bytes.
    pub fn end(&self) -> Option<u64>
        ensures { IfSome result (λ end. end ≡ self.now.at + length self.now.bytes.items) }
    {
        self.at.checked_add(self.bytes.len() as u64)
    }

    /// Whether pieces of that length at that place follow what waits, in the same part of the file.
    pub fn takes(&self, at: u64, piece: u64) -> bool
        ensures next { result ≡ true → IsNext self.now.name self.now.at (length self.now.bytes.items) at }
        ensures pieces { result ≡ true → AreOf piece self.now.name self.now.piece }
    {
        if self.is_empty() {
            return true;
        }
        piece == self.piece && at / PART as u64 == self.at / PART as u64 && self.end() == Some(at)
    }

    /// Lets them wait, after what waits already, and answers whether they do. A whole part doesn't wait, nor does what memory runs out for.
    pub fn gather(&mut self, name: &Name, at: u64, bytes: &[u8], piece: u64) -> bool
        requires next { IsNext self.old.name self.old.at (length self.old.bytes.items) at }
        requires mine { IsFreeFor self.old.name name.now }
        requires pieces { AreOf piece self.old.name self.old.piece }
        requires some { 0 < piece }
        requires whole { IsWhole piece (at + length bytes.now) }
        ensures seen { result ≡ true → (file : List ℕ) → seen self.new.name self.new.at self.new.bytes.items name.now file ≡ put_at (seen self.old.name self.old.at self.old.bytes.items name.now file) at bytes.now }
        ensures mine { IsFreeFor self.new.name name.now }
        ensures pieces { AreOf piece self.new.name self.new.piece }
        ensures fails { result ≡ false → (file : List ℕ) → seen self.new.name self.new.at self.new.bytes.items name.now file ≡ seen self.old.name self.old.at self.old.bytes.items name.now file }
    {
        if bytes.len() >= PART {
            return false;
        }
        self.add(name, at, bytes, piece).is_ok()
    }

    /// Lets them wait, after what waits already. Where memory runs out nothing changes.
    fn add(&mut self, name: &Name, at: u64, bytes: &[u8], piece: u64) -> Result<(), AllocError>
        requires next { IsNext self.old.name self.old.at (length self.old.bytes.items) at }
        requires mine { IsFreeFor self.old.name name.now }
        requires pieces { AreOf piece self.old.name self.old.piece }
        requires some { 0 < piece }
        requires whole { IsWhole piece (at + length bytes.now) }
        ensures seen { OnOk result ((file : List ℕ) → seen self.new.name self.new.at self.new.bytes.items name.now file ≡ put_at (seen self.old.name self.old.at self.old.bytes.items name.now file) at bytes.now) }
        ensures mine { IsFreeFor self.new.name name.now }
        ensures pieces { AreOf piece self.new.name self.new.piece }
        ensures waits { OnOk result (self.new.name ≢ None) }
        ensures fails { OnErr result ((file : List ℕ) → seen self.new.name self.new.at self.new.bytes.items name.now file ≡ seen self.old.name self.old.at self.old.bytes.items name.now file) }
    {
        if self.is_empty() {
            self.start(name, at, bytes, piece)
        } else {
            self.bytes.extend_from_slice(bytes)
        }
    }

    fn start(&mut self, name: &Name, at: u64, bytes: &[u8], piece: u64) -> Result<(), AllocError>
        requires none { self.old.name ≡ None }
        requires some { 0 < piece }
        requires whole { IsWhole piece (at + length bytes.now) }
        ensures starts { OnOk result ((self.new.name ≡ Some name.now) × (self.new.at ≡ at) × (self.new.bytes.items ≡ bytes.now)) }
        ensures pieces { OnOk result (self.new.piece ≡ piece) }
        ensures fails { OnErr result (self.new.name ≡ None) }
    {
        self.bytes.clear();
        self.bytes.extend_from_slice(bytes)?;
        self.name = Some(name.copied());
        self.at = at;
        self.piece = piece;
        Ok(())
    }

    /// Nothing waits any more. The memory stays.
    pub fn clear(&mut self)
        ensures { self.new.name ≡ None }
    {
        self.name = None;
        self.bytes.clear();
    }
}
