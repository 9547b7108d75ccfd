ghost use Rattle.std.specs.Prelude.{◌≡◌, ◌⊎◌, ◌<◌, ◌≤◌, ◌+◌, length, drop, IsTrue, IfOk};
ghost use Rattle.nb_fields.specs.Bytes.{number_in};
ghost use Rattle.nb_fields.specs.Places.{is_page_size};
ghost use Rattle.nb_level.specs.Reading.{IsBegun};
ghost use Rattle.nb_host.specs.declared.faults.Fault.TheVariants.{Refused};
ghost use Rattle.nb_host.specs.declared.refusals.Refusal.TheVariants.{BadLevel};
ghost use Rattle.nb_host.specs.Files.{bytes_of};
ghost use Rattle.nb_host.specs.Calls.{IsStill};
ghost use Rattle.nb_host.specs.Moments.{Passes};
ghost use Rattle.nb_host.specs.Causes.{CountsDevice};
ghost use Rattle.nb_level.specs.Answers.{NextSays, GivesAt, Rises, lead_of, number_due, ReadsOnce};
ghost use Rattle.nb_level.specs.declared.place.Place.{Place};

use crate::head::head_in;
use crate::place::Place;
use crate::steps::{END_MARK, barred_after, run_step, single_step};
use crate::{Item, LevelHead};
use nb_fields::layouts::level;
use nb_host::{Fault, Host, Name, Refusal};
use std::alloc::{AllocError, Global};
use std::marker::Model;

/// A level file that is read from front to back, one page a call.
///
/// Contracts see the file's name, its version and head, and where the reader stands. What is still to come is what the
/// grammar reads from there on.
#[derive(Drop)]
pub struct LevelReader {
    name: Name,
    version: u16,
    head: LevelHead,
    place: Place,
    // One page with what stands before it.
    buffer: Vec<u8>,
}

impl Model for LevelReader {
    ghost use Rattle.std.specs.Prelude.{length};
    ghost use Rattle.nb_level.specs.Reading.{Reading, IsReader};

    ghost Value = { Reading };

    ghost view = { λ r. record { name = r.name; version = r.version; head = r.head; place = r.place } };

    ghost invariant = { λ r. IsReader r.version r.head r.place (length r.buffer.items) };
}

/// How many bytes stand before a page of a file of that version.
fn lead(version: u16) -> usize
    ensures single { version ≡ 101 → result ≡ 4 }
    ensures run { version ≡ 102 → result ≡ 8 }
    ensures few { result ≤ 8 }
{
    if version == 101 { 4 } else { 8 }
}

impl LevelReader {
    /// A reader after a head that is of the form. It takes the memory for a page.
    pub(crate) fn begun(
        alloc: Global,
        name: &Name,
        first: &[u8; level::LENGTH],
    ) -> Result<LevelReader, AllocError>
        requires version { (number_in 4 2 first.now ≡ 101) ⊎ (number_in 4 2 first.now ≡ 102) }
        requires size { IsTrue (is_page_size (number_in 40 4 first.now)) }
        ensures { IfOk result (IsBegun name.now first.now) }
    {
        let version = level::Version::get(first) as u16;
        let head = head_in(first);
        let buffer = vec![in alloc; 0; lead(version) + head.page_size as usize]?;
        Ok(LevelReader {
            name: name.copied(),
            version,
            head,
            place: Place {
                at: level::LENGTH as u64,
                count: 0,
                least: 0,
                barred: END_MARK,
                left: 0,
            },
            buffer,
        })
    }

    /// The head of the file.
    pub fn head(&self) -> LevelHead
        ensures value { result ≡ self.now.head }
        ensures size { IsTrue (is_page_size result.page_size) }
    {
        self.head
    }

    /// The file's version, 101 or 102.
    pub fn version(&self) -> u16
        ensures { result ≡ self.now.version }
    {
        self.version
    }

    /// The refusal of a file that is broken there.
    fn broken(&self, at: u64) -> Fault
        ensures { result ≡ Refused (BadLevel self.now.name at) }
    {
        Fault::Refused(Refusal::BadLevel {
            name: self.name.copied(),
            at,
        })
    }

    /// The next page of the run that has begun.
    fn next_in_run<H: Host>(&mut self, host: &mut H, into: &mut [u8]) -> Result<Item, Fault>
        requires size { length into.old ≡ self.old.head.page_size }
        requires run { (self.old.version ≡ 102) × (0 < self.old.place.left) }
        ensures answer { NextSays H.tells ((H.world host.old).files self.old.name) self.old self.new into.new result }
        ensures there { GivesAt H.tells ((H.world host.old).files self.old.name) 0 self.old.place.least self.old self.new into.new result }
        ensures rises { Rises self.old self.new result }
        ensures same { self.new ≡ record self.old { place = self.new.place } }
        ensures files { IsStill (H.world host.old) (H.world host.new) }
        ensures log { ReadsOnce H.tells (H.world host.old) (H.world host.new) }
        ensures time { Passes (H.world host.old) (H.world host.new) }
        ensures cause { CountsDevice result (H.faults host.old) (H.faults host.new) }
    {
        let count = host.read_at(&self.name, self.place.at, into)?;
        if count < into.len() {
            return Err(self.broken(self.place.at + count as u64));
        }
        let number = self.place.least;
        self.place = Place {
            at: self.place.at + count as u64,
            count: self.place.count + 1,
            least: number + 1,
            barred: self.place.barred,
            left: self.place.left - 1,
        };
        Ok(Item::PageAt(number))
    }

    /// The next page of a file of version 101, or its end.
    fn next_single<H: Host>(&mut self, host: &mut H, into: &mut [u8]) -> Result<Item, Fault>
        requires size { length into.old ≡ self.old.head.page_size }
        requires version { self.old.version ≡ 101 }
        ensures answer { NextSays H.tells ((H.world host.old).files self.old.name) self.old self.new into.new result }
        ensures there { GivesAt H.tells ((H.world host.old).files self.old.name) 4 (number_in 0 4 (drop self.old.place.at (bytes_of ((H.world host.old).files self.old.name)))) self.old self.new into.new result }
        ensures rises { Rises self.old self.new result }
        ensures same { self.new ≡ record self.old { place = self.new.place } }
        ensures files { IsStill (H.world host.old) (H.world host.new) }
        ensures log { ReadsOnce H.tells (H.world host.old) (H.world host.new) }
        ensures time { Passes (H.world host.old) (H.world host.new) }
        ensures cause { CountsDevice result (H.faults host.old) (H.faults host.new) }
    {
        let Place {
            at,
            count,
            least,
            ..
        } = self.place;
        let got = host.read_at(&self.name, at, &mut self.buffer)?;
        match single_step(&self.head, at, count, least, &self.buffer[..got]) {
            Err(place) => Err(self.broken(place)),
            Ok(None) => Ok(Item::End(count)),
            Ok(Some((number, _))) => {
                into.copy_from_slice(&self.buffer[4..]);
                self.place = Place {
                    at: at + got as u64,
                    count: count + 1,
                    least: number + 1,
                    barred: END_MARK,
                    left: 0,
                };
                Ok(Item::PageAt(number))
            }
        }
    }

    /// The first page of the next run of a file of version 102, or its end.
    fn next_run<H: Host>(&mut self, host: &mut H, into: &mut [u8]) -> Result<Item, Fault>
        requires size { length into.old ≡ self.old.head.page_size }
        requires run { (self.old.version ≡ 102) × (self.old.place.left ≡ 0) }
        ensures answer { NextSays H.tells ((H.world host.old).files self.old.name) self.old self.new into.new result }
        ensures there { GivesAt H.tells ((H.world host.old).files self.old.name) 8 (number_in 0 4 (drop self.old.place.at (bytes_of ((H.world host.old).files self.old.name)))) self.old self.new into.new result }
        ensures rises { Rises self.old self.new result }
        ensures same { self.new ≡ record self.old { place = self.new.place } }
        ensures files { IsStill (H.world host.old) (H.world host.new) }
        ensures log { ReadsOnce H.tells (H.world host.old) (H.world host.new) }
        ensures time { Passes (H.world host.old) (H.world host.new) }
        ensures cause { CountsDevice result (H.faults host.old) (H.faults host.new) }
    {
        let Place {
            at,
            count,
            least,
            barred,
            ..
        } = self.place;
        let got = host.read_at(&self.name, at, &mut self.buffer)?;
        match run_step(&self.head, at, count, least, barred, &self.buffer[..got]) {
            Err(place) => Err(self.broken(place)),
            Ok(None) => Ok(Item::End(count)),
            Ok(Some((number, pages))) => {
                into.copy_from_slice(&self.buffer[8..]);
                self.place = Place {
                    at: at + got as u64,
                    count: count + 1,
                    least: number + 1,
                    barred: barred_after(number, pages),
                    left: pages - 1,
                };
                Ok(Item::PageAt(number))
            }
        }
    }

    /// Fills in the next page, and gives its number; or gives the number of pages at the file's end.
    ///
    /// The refusal is `BadLevel`, with the first place that is broken. The reader then stays as it was.
    pub fn next<H: Host>(&mut self, host: &mut H, into: &mut [u8]) -> Result<Item, Fault>
        requires { length into.old ≡ self.old.head.page_size }
        ensures answer { NextSays H.tells ((H.world host.old).files self.old.name) self.old self.new into.new result }
        ensures there { GivesAt H.tells ((H.world host.old).files self.old.name) (lead_of self.old) (number_due self.old (drop self.old.place.at (bytes_of ((H.world host.old).files self.old.name)))) self.old self.new into.new result }
        ensures rises { Rises self.old self.new result }
        ensures same { self.new ≡ record self.old { place = self.new.place } }
        ensures files { IsStill (H.world host.old) (H.world host.new) }
        ensures log { ReadsOnce H.tells (H.world host.old) (H.world host.new) }
        ensures time { Passes (H.world host.old) (H.world host.new) }
        ensures cause { CountsDevice result (H.faults host.old) (H.faults host.new) }
    {
        if self.version == 101 {
            return self.next_single(host, into);
        }
        if self.place.left > 0 {
            return self.next_in_run(host, into);
        }
        self.next_run(host, into)
    }
}
