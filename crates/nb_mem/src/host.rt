ghost use Rattle.std.specs.Prelude.{◌≡◌, ◌+◌, ◌*◌, ◌++◌, [], ◌∷◌, length, true, option_map, IsTrue, OnOk, IfOk, IfErr};
ghost use Rattle.std.specs.Option.{option_copied};
ghost use Rattle.nb_host.specs.Files.{is_page_size};
ghost use Rattle.nb_host.specs.Causes.{own_count};
ghost use Rattle.nb_host.specs.Crash.{IsDurable};
ghost use Rattle.nb_host.specs.Calls.{IsStill, ReadsPage, ReadsBytes, Syncs};
ghost use Rattle.nb_mem.specs.Histories.{world_of, files_of, guid_of, guids_of, guids_behind, times_of, with_guids};
ghost use Rattle.nb_mem.specs.declared.entry.Entry.{Entry as Call};
ghost use Rattle.nb_mem.specs.Memory.{Answers, fresh};
ghost use Rattle.nb_mem.specs.Outcomes.{IsLeft};
ghost use Rattle.nb_mem.specs.Chosen.{picked};
ghost use Rattle.nb_mem.specs.HistoryLaws.{timely, reads_left};

use crate::counts::Counts;
use crate::entry::{Change, Question};
use crate::history::History;
use crate::reads::{read_part, read_whole};
use nb_host::{Fault, Host, HostFault, Name};
use std::alloc::Global;
use std::marker::Model;

/// A host in memory, which tells everything.
///
/// Its `k`-th GUID is eight zero bytes and then `k` in eight bytes, most significant first. Its clock gives
/// 1,000,000,000 first, and each time one second more. A call fails where its number, from 1, is among those
/// that are to fail, or where memory ran out; it then changes no file and says nothing.
#[derive(Drop)]
pub struct MemHost {
    alloc: Global,
    history: History,
    counts: Counts,
}

impl Model for MemHost {
    ghost use Rattle.nb_mem.specs.Memory.{Memory};

    ghost Value = { Memory };

    ghost view = { λ h. record { history = h.history; calls = h.counts.calls; faults = h.counts.faults; shortages = h.counts.shortages; failing = h.counts.failing.items; stop = h.counts.stop } };
}

impl MemHost {
    /// A host with no file, of which no call is to fail.
    pub fn new(alloc: Global) -> Result<MemHost, Fault>
        ensures { result ≡ Ok (fresh [] None) }
    {
        Ok(MemHost {
            alloc,
            history: History::new(alloc),
            counts: Counts::new(Vec::new(alloc), None),
        })
    }

    /// One of which the calls with these numbers, from 1, are to fail. The only error is want of memory.
    pub fn failing(alloc: Global, calls: &[u64]) -> Result<MemHost, Fault>
        ensures ok { IfOk result (λ host. host ≡ fresh calls.now None) }
        ensures err { IfErr result (λ fault. fault ≡ Fault.Memory) }
    {
        let failing = Vec::from_slice(alloc, calls)?;
        Ok(MemHost {
            alloc,
            history: History::new(alloc),
            counts: Counts::new(failing, None),
        })
    }

    /// One of which the call with that number, from 1, and each later one are to fail.
    pub fn fused(alloc: Global, stop: u64) -> Result<MemHost, Fault>
        ensures { result ≡ Ok (fresh [] (Some stop)) }
    {
        Ok(MemHost {
            alloc,
            history: History::new(alloc),
            counts: Counts::new(Vec::new(alloc), Some(stop)),
        })
    }

    /// Places a file with these bytes, and syncs it. It is no call of the host. The only error is want of memory,
    /// and then nothing has changed.
    pub fn put_file(&mut self, name: &Name, bytes: &[u8]) -> Result<(), Fault>
        ensures ok { OnOk result (self.new ≡ record self.old { history = Call.Changed name.now (Change.Placed bytes.now) ∷ self.old.history }) }
        ensures durable { OnOk result (IsDurable (world_of self.new.history) name.now (Some bytes.now)) }
        ensures err { IfErr result (λ fault. (fault ≡ Fault.Memory) × (self.new ≡ self.old)) }
    {
        self.history.place(name, bytes)?;
        Ok(())
    }

    /// One outcome of a crash now, as a new host of which no call is to fail. The only error is want of memory.
    ///
    /// Pick 0 loses all that was not synced, and pick 1 keeps all. Any other pick goes by its bits, the lowest first and
    /// a 0 after them, again and again, through the files in the order of their first calls: whether a made or removed
    /// file is so; whether a page is kept and, where it is lost past the end, whether the file grew; whether appended
    /// bytes are kept, then whether whole, and then whether zeros stand in the place of their second half.
    pub fn left(&self, pick: u64) -> Result<MemHost, Fault>
        ensures left { IfOk result (λ host. IsLeft self.now.history host.history) }
        ensures picked { IfOk result (λ host. host.history ≡ picked pick self.now.history) }
        ensures anew { IfOk result (λ host. host ≡ record (fresh [] None) { history = host.history }) }
        ensures err { IfErr result (λ fault. fault ≡ Fault.Memory) }
    {
        let history = self.history.left(pick)?;
        Ok(MemHost {
            alloc: self.alloc,
            history,
            counts: Counts::new(Vec::new(self.alloc), None),
        })
    }

    /// The host with so many GUIDs counted as given: the next is the one after them. It is no call of the host. The only error is
    /// want of memory.
    ///
    /// What starts from what a crash left counts from the first again. `host.left(pick)?.behind_guids(host.guid_count())` gives none
    /// that was given before the crash.
    pub fn behind_guids(mut self, count: u64) -> Result<MemHost, Fault>
        ensures ok { IfOk result (λ host. host ≡ record self { history = with_guids count self.history }) }
        ensures still { IfOk result (λ host. IsStill (world_of self.history) (world_of host.history)) }
        ensures guids { IfOk result (λ host. (world_of host.history).guids ≡ (world_of self.history).guids ++ guids_behind (length (world_of self.history).guids) count) }
        ensures err { IfErr result (λ fault. fault ≡ Fault.Memory) }
    {
        self.history.give_guids(count)?;
        Ok(self)
    }

    /// The bytes of a file as they read now, and none where there is no such file.
    pub fn file(&self, name: &Name) -> Option<&[u8]>
        ensures { option_copied result ≡ (world_of self.now.history).files name.now }
    {
        self.history.file(name)
    }

    /// The output so far.
    pub fn output(&self) -> &[u8]
        ensures { result.now ≡ (world_of self.now.history).said }
    {
        self.history.said()
    }

    /// How many reads there were.
    pub fn read_count(&self) -> u64
        ensures { result ≡ (world_of self.now.history).reads }
    {
        self.history.reads()
    }

    /// How many GUIDs were given.
    pub fn guid_count(&self) -> u64
        ensures { result ≡ length (world_of self.now.history).guids }
    {
        self.history.guids()
    }

    /// How many calls of the host there were, those that failed among them.
    pub fn calls(&self) -> u64
        ensures { result ≡ self.now.calls }
    {
        self.counts.calls
    }

    /// How many calls failed.
    pub fn fault_count(&self) -> u64
        ensures { result ≡ self.now.faults }
    {
        self.counts.faults
    }

    /// How many calls failed for want of memory.
    pub fn memory_count(&self) -> u64
        ensures { result ≡ self.now.shortages }
    {
        self.counts.shortages
    }
}

/// What the clock gives first.
const FIRST_SECOND: u64 = 1_000_000_000;

/// The GUID of that number, from 1.
#[tactic(auto, unfolding(crate::specs::Histories::guid_of))]
fn guid_of(number: u64) -> [u8; 16]
    ensures { result ≡ guid_of number }
{
    let mut guid = [0; 16];
    guid[8..].copy_from_slice(&number.to_be_bytes());
    guid
}

impl Host for MemHost {
    ghost tells = { true };

    ghost world = { λ host. world_of host.history };

    ghost faults = { λ host. own_count host.faults };

    ghost timely = { λ host. timely host.history };

    ghost reads_left = { λ host tells name. reads_left host.history name };

    fn size(&mut self, name: &Name) -> Result<Option<u64>, HostFault>
        ensures does { Answers result self.old self.new (Call.Asked Question.Size) }
        ensures answer { IfOk result (λ size. size ≡ option_map length (files_of self.old.history name.now)) }
    {
        self.counts.enter()?;
        self.counts.settle(self.history.ask_size())?;
        Ok(self.history.file(name).map(|bytes| bytes.len() as u64))
    }

    fn make(&mut self, name: &Name) -> Result<(), HostFault>
        ensures does { Answers result self.old self.new (Call.Changed name.now Change.Made) }
    {
        self.counts.enter()?;
        self.counts.settle(self.history.change(name, Change::Made))?;
        Ok(())
    }

    fn remove(&mut self, name: &Name) -> Result<(), HostFault>
        ensures does { Answers result self.old self.new (Call.Changed name.now Change.Removed) }
    {
        self.counts.enter()?;
        self.counts
            .settle(self.history.change(name, Change::Removed))?;
        Ok(())
    }

    fn read_page(&mut self, name: &Name, index: u32, into: &mut [u8]) -> Result<bool, HostFault>
        requires { IsTrue (is_page_size (length into.old)) }
        ensures does { Answers result self.old self.new (Call.Asked Question.Read) }
        ensures answer { IfOk result (ReadsPage (files_of self.old.history name.now) (index * length into.old) into.old into.new) }
    {
        self.counts.enter()?;
        self.counts.settle(self.history.ask_read())?;
        let file = self.history.file(name).unwrap_or(&[]);
        Ok(read_whole(file, index as usize * into.len(), into))
    }

    fn write_page(&mut self, name: &Name, index: u32, page: &[u8]) -> Result<(), HostFault>
        requires { IsTrue (is_page_size (length page.now)) }
        ensures does { Answers result self.old self.new (Call.Changed name.now (Change.Paged (index * length page.now) page.now)) }
    {
        self.counts.enter()?;
        let at = index as usize * page.len();
        self.counts.settle(self.history.write(name, at, page))?;
        Ok(())
    }

    fn read_at(&mut self, name: &Name, at: u64, into: &mut [u8]) -> Result<usize, HostFault>
        ensures does { Answers result self.old self.new (Call.Asked Question.Read) }
        ensures answer { IfOk result (ReadsBytes (files_of self.old.history name.now) at into.old into.new) }
    {
        self.counts.enter()?;
        self.counts.settle(self.history.ask_read())?;
        let file = self.history.file(name).unwrap_or(&[]);
        Ok(read_part(file, at as usize, into))
    }

    fn append(&mut self, name: &Name, bytes: &[u8]) -> Result<(), HostFault>
        ensures does { Answers result self.old self.new (Call.Changed name.now (Change.Appended bytes.now)) }
    {
        self.counts.enter()?;
        self.counts.settle(self.history.append(name, bytes))?;
        Ok(())
    }

    fn sync(&mut self, name: &Name) -> Result<(), HostFault>
        ensures does { Answers result self.old self.new (Call.Changed name.now Change.Synced) }
        ensures files { Syncs true result (world_of self.old.history) (world_of self.new.history) name.now }
    {
        self.counts.enter()?;
        self.counts
            .settle(self.history.change(name, Change::Synced))?;
        Ok(())
    }

    fn say(&mut self, bytes: &[u8]) -> Result<(), HostFault>
        ensures does { Answers result self.old self.new (Call.Said bytes.now) }
    {
        self.counts.enter()?;
        self.counts.settle(self.history.say(bytes))?;
        Ok(())
    }

    fn guid(&mut self) -> Result<[u8; 16], HostFault>
        ensures does { Answers result self.old self.new (Call.Asked Question.Guid) }
        ensures answer { IfOk result (λ guid. guid ≡ guid_of (length (guids_of self.old.history) + 1)) }
    {
        self.counts.enter()?;
        self.counts.settle(self.history.ask_guid())?;
        Ok(guid_of(self.history.guids()))
    }

    fn seconds(&mut self) -> Result<u64, HostFault>
        ensures does { Answers result self.old self.new (Call.Asked Question.Time) }
        ensures answer { IfOk result (λ time. time ≡ 1000000000 + length (times_of self.old.history)) }
    {
        self.counts.enter()?;
        let time = FIRST_SECOND + self.history.times();
        self.counts.settle(self.history.ask_time())?;
        Ok(time)
    }
}
