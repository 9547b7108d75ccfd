ghost use Rattle.std.specs.Prelude.{◌≡◌, ◌+◌, ◌≤◌, ◌++◌, [], length, take, drop, replicate, IfOk, OnOk, OnErr};
ghost use Rattle.nb_host.specs.Files.{padded, put_at};

use std::alloc::{AllocError, Global};
use std::marker::Model;

/// Bytes in memory of their own. Contracts see them as a list.
#[derive(Drop)]
pub struct Bytes {
    kept: Vec<u8>,
}

impl Model for Bytes {
    ghost use Rattle.std.specs.Prelude.{ℕ, List};

    ghost Value = { List ℕ };

    ghost view = { λ b. b.kept.items };
}

impl Bytes {
    pub fn new(alloc: Global) -> Bytes
        ensures { result ≡ [] }
    {
        Bytes {
            kept: Vec::new(alloc),
        }
    }

    pub fn copy(alloc: Global, bytes: &[u8]) -> Result<Bytes, AllocError>
        ensures { IfOk result (λ copy. copy ≡ bytes.now) }
    {
        let kept = Vec::from_slice(alloc, bytes)?;
        Ok(Bytes { kept })
    }

    pub fn as_slice(&self) -> &[u8]
        ensures { result.now ≡ self.now }
    {
        self.kept.as_slice()
    }

    pub fn len(&self) -> usize
        ensures { result ≡ length self.now }
    {
        self.kept.len()
    }

    pub fn append_zeros(&mut self, count: usize) -> Result<(), AllocError>
        ensures ok { OnOk result (self.new ≡ self.old ++ replicate count 0) }
        ensures err { OnErr result (self.new ≡ self.old) }
    {
        append_zeros(&mut self.kept, count)
    }

    /// Puts a page at that place, with zeros before it where the bytes ended earlier.
    pub fn put(&mut self, at: usize, page: &[u8]) -> Result<(), AllocError>
        ensures ok { OnOk result (self.new ≡ put_at self.old at page.now) }
        ensures err { OnErr result (self.new ≡ self.old) }
    {
        put(&mut self.kept, at, page)
    }

    pub fn append(&mut self, bytes: &[u8]) -> Result<(), AllocError>
        ensures ok { OnOk result (self.new ≡ self.old ++ bytes.now) }
        ensures err { OnErr result (self.new ≡ self.old) }
    {
        self.kept.extend_from_slice(bytes)?;
        Ok(())
    }
}

/// The bytes with zeros after them, up to this length.
fn extend_to(kept: &mut Vec<u8>, len: usize) -> Result<(), AllocError>
    ensures ok { OnOk result (kept.new.items ≡ padded kept.old.items len) }
    ensures err { OnErr result (kept.new.items ≡ kept.old.items) }
{
    if kept.len() < len {
        kept.resize(len, 0)?;
    }
    Ok(())
}

fn append_zeros(kept: &mut Vec<u8>, count: usize) -> Result<(), AllocError>
    ensures ok { OnOk result (kept.new.items ≡ kept.old.items ++ replicate count 0) }
    ensures err { OnErr result (kept.new.items ≡ kept.old.items) }
{
    if count > usize::MAX - kept.len() {
        return Err(AllocError);
    }
    extend_to(kept, kept.len() + count)?;
    Ok(())
}

/// Writes a page over the bytes that stand there.
fn write_over(bytes: &mut [u8], at: usize, page: &[u8])
    requires { at + length page.now ≤ length bytes.old }
    ensures { bytes.new ≡ take at bytes.old ++ (page.now ++ drop (at + length page.now) bytes.old) }
{
    bytes[at..at + page.len()].copy_from_slice(page);
}

fn put(kept: &mut Vec<u8>, at: usize, page: &[u8]) -> Result<(), AllocError>
    ensures ok { OnOk result (kept.new.items ≡ put_at kept.old.items at page.now) }
    ensures err { OnErr result (kept.new.items ≡ kept.old.items) }
{
    if at > usize::MAX - page.len() {
        return Err(AllocError);
    }
    extend_to(kept, at + page.len())?;
    write_over(kept.as_mut_slice(), at, page);
    Ok(())
}
