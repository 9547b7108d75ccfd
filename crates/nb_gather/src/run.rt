ghost use Rattle.std.specs.Prelude.{◌≡◌, ◌++◌, ◌+◌, ◌<◌, ◌&&◌, ◌||◌, ◌==◌, nat_lt, IsTrue, IfOk, length};
ghost use Rattle.nb_fields.specs.Bytes.{bytes_of};
ghost use Rattle.nb_fields.specs.Places.{is_page_size};
ghost use Rattle.nb_host.specs.Calls.{IsSilent};
ghost use Rattle.nb_host.specs.Causes.{CountsFault};
ghost use Rattle.nb_level.specs.Adding.{AddsTwo};
ghost use Rattle.nb_gather.specs.Gathering.{Waiting};

use nb_host::{Host, HostFault, Name};
use nb_level::write_run;
use std::alloc::{AllocError, Global};
use std::marker::Model;

/// How many pages a run has at most.
const MOST: usize = 16;

/// A run that waits until it is complete. It has room for 16 pages.
#[derive(Drop)]
pub(crate) struct Run {
    first: u32,
    page_size: u32,
    count: usize,
    bytes: Vec<u8>,
}

impl Model for Run {
    ghost use Rattle.std.specs.Prelude.{◌*◌, length, take};
    ghost use Rattle.nb_gather.specs.Gathering.{Waiting, IsWaiting};

    ghost Value = { Waiting };

    ghost view = { λ r. record { first = r.first; size = r.page_size; count = r.count; bytes = take (r.count * r.page_size) r.bytes.items } };

    ghost invariant = { λ r. IsWaiting r.page_size r.count (length r.bytes.items) };
}

impl Run {
    /// No run, and the memory for one.
    pub(crate) fn new(alloc: Global, page_size: u32) -> Result<Run, AllocError>
        requires { IsTrue (is_page_size page_size) }
        ensures size { IfOk result (λ run. run.size ≡ page_size) }
        ensures none { IfOk result (λ run. run.count ≡ 0) }
    {
        let bytes = vec![in alloc; 0; MOST * page_size as usize]?;
        Ok(Run {
            first: 0,
            page_size,
            count: 0,
            bytes,
        })
    }

    /// Whether none waits.
    pub(crate) fn is_empty(&self) -> bool
        ensures { result ≡ (self.now.count == 0) }
    {
        self.count == 0
    }

    /// Whether it has 16 pages.
    pub(crate) fn is_full(&self) -> bool
        ensures { result ≡ (self.now.count == 16) }
    {
        self.count == MOST
    }

    /// Whether page `number` may go into it: none waits, or the page goes on with it.
    pub(crate) fn takes(&self, number: u32) -> bool
        ensures { result ≡ (self.now.count == 0 || (number == self.now.first + self.now.count && nat_lt self.now.count 16)) }
    {
        self.count == 0
            || (u64::from(number) == u64::from(self.first) + self.count as u64 && self.count < MOST)
    }

    /// Page `number` goes into it. Where none waits, it is the first.
    pub(crate) fn add(&mut self, number: u32, page: &[u8])
        requires room { self.old.count < 16 }
        requires size { length page.now ≡ self.old.size }
        ensures first { self.old.count ≡ 0 → self.new.first ≡ number }
        ensures more { 0 < self.old.count → self.new.first ≡ self.old.first }
        ensures alone { self.old.count ≡ 0 → self.new.bytes ≡ page.now }
        ensures bytes { self.new.bytes ≡ self.old.bytes ++ page.now }
        ensures count { self.new.count ≡ self.old.count + 1 }
        ensures size { self.new.size ≡ self.old.size }
    {
        if self.count == 0 {
            self.first = number;
        }
        let at = self.count * self.page_size as usize;
        self.bytes[at..at + page.len()].copy_from_slice(page);
        self.count += 1;
    }

    /// Appends it to that file, and none waits then.
    pub(crate) fn append<H: Host>(&mut self, host: &mut H, name: &Name) -> Result<(), HostFault>
        requires { 0 < self.old.count }
        ensures adds { IsTrue H.tells → AddsTwo result (H.world host.old) (H.world host.new) name.now (bytes_of 4 self.old.first ++ bytes_of 4 self.old.count) self.old.bytes }
        ensures none { self.new.count ≡ 0 }
        ensures size { self.new.size ≡ self.old.size }
        ensures log { IsSilent (H.world host.old) (H.world host.new) }
        ensures cause { CountsFault result (H.faults host.old) (H.faults host.new) }
    {
        let end = self.count * self.page_size as usize;
        self.count = 0;
        write_run(host, name, self.first, self.page_size, &self.bytes[..end])
    }
}
