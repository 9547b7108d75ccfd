ghost use Rattle.std.specs.Prelude.{◌≡◌, ℕ, ◌+◌, ◌/◌, ◌<◌, ◌≤◌, IsTrue, List, [], ◌∷◌, ◌++◌, length, replicate, Some, None, Ok, Err, OnOk, OnErr, IfOk, IfErr, IsOk, slice_index, option_map};
ghost use Rattle.nb_host.specs.declared.faults.Fault.TheVariants.{Memory};
ghost use Rattle.nb_host.specs.Crash.{IsDurable};
ghost use Rattle.nb_host.specs.Calls.{IsSilent};
ghost use Rattle.nb_host.specs.Causes.{CountsDevice, CountsFault, CountsRun};
ghost use Rattle.nb_fields.specs.Places.{is_page_size, slots_in, most_pages};
ghost use Rattle.nb_fields.specs.Table.{slot_place};
ghost use Rattle.nb_page.specs.Quiet.{Quiet};
ghost use Rattle.nb_delta.specs.Entries.{place_of, AreEntries};
ghost use Rattle.nb_change.specs.Changes.{Only, Changes, Moved, Remade};
ghost use Rattle.nb_delta.specs.Slots.{HasTable, HasZeros, slot_page, SlotStep, SlotPut, Adds, AddStep, IsBlank};
ghost use Rattle.nb_delta.specs.Waiting.{Waits, FrontStep, HasAll};
ghost use Rattle.nb_delta.specs.Attaching.{IsFor, Attaches};

use crate::entries::Entries;
use crate::places::slot_of;
use crate::reading::read_table;
use crate::waiting::put_waiting;
use crate::writing::{make_file, put_entry, remove_file, rewrite_slot};
use nb_host::{Fault, Host, HostFault, Name, Refusal, RunError};
use std::alloc::Global;
use std::marker::Model;

/// The difference file of a database: groups of an allocation page and the slots of its entries.
///
/// Contracts see its name, the page size, the entries in order, and how many of the last of them are drafted: they wait,
/// and the file's table doesn't have them yet.
#[derive(Drop)]
pub struct Delta {
    name: Name,
    page_size: u32,
    entries: Entries,
    drafted: u32,
    /// Room for one page.
    page: Vec<u8>,
}

impl Model for Delta {
    ghost use Rattle.std.specs.Prelude.{◌≡◌, ◌≤◌, IsTrue, length, vec_len};
    ghost use Rattle.nb_fields.specs.Places.{is_page_size};
    ghost use Rattle.nb_delta.specs.Known.{Known};

    ghost Value = { Known };

    ghost view = { λ d. record { name = d.name; page_size = d.page_size; entries = d.entries; drafted = d.drafted } };

    ghost invariant = { λ d. IsTrue (is_page_size d.page_size) × (vec_len d.page ≡ d.page_size) × (d.drafted ≤ length d.entries) };
}

impl Delta {
    /// The object of a difference file that has no entries, before there is any file.
    pub fn blank(alloc: Global, name: &Name, page_size: u32) -> Result<Delta, Fault>
        requires size { IsTrue (is_page_size page_size) }
        ensures ok { IfOk result (λ delta. delta ≡ record { name = name.now; page_size = page_size; entries = []; drafted = 0 }) }
        ensures only_memory { IfErr result (λ fault. fault ≡ Memory) }
    {
        let page = vec![in alloc; 0u8; page_size as usize]?;
        Ok(Delta {
            name: name.copied(),
            page_size,
            entries: Entries::new(alloc),
            drafted: 0,
            page,
        })
    }

    /// The difference file of that name, with its table. It reads allocation pages only, and changes nothing.
    ///
    /// The refusals are `NoFile` and `BadDelta`, which names the first page of the file that breaks its form.
    pub fn attach<H: Host>(
        alloc: Global,
        host: &mut H,
        name: &Name,
        page_size: u32,
    ) -> Result<Delta, Fault>
        requires size { IsTrue (is_page_size page_size) }
        ensures answer { IsTrue H.tells → Attaches page_size name.now ((H.world host.old).files name.now) result }
        ensures known { IfOk result (λ delta. IsFor delta name.now page_size) }
        ensures quiet { Quiet (H.world host.old) (H.world host.new) }
        ensures reads { IsTrue H.tells → IfOk result (λ delta. (H.world host.new).reads ≡ (H.world host.old).reads + length delta.entries / slots_in page_size + 1) }
        ensures cause { CountsDevice result (H.faults host.old) (H.faults host.new) }
    {
        let Some(len) = host.size(name)? else {
            return Err(Fault::Refused(Refusal::NoFile {
                name: name.copied(),
            }));
        };
        let mut delta = Delta::blank(alloc, name, page_size)?;
        read_table(host, name, len, &mut delta.page, &mut delta.entries)?;
        Ok(delta)
    }

    /// How many entries there are.
    pub fn count(&self) -> u32
        ensures value { result ≡ length self.now.entries }
        ensures most { result ≤ most_pages }
    {
        self.entries.len()
    }

    /// How many of the entries are drafted.
    pub fn drafted(&self) -> u32
        ensures value { result ≡ self.now.drafted }
        ensures apart { AreEntries self.now.entries }
    {
        // No page is named twice.
        let _count = self.entries.len();
        self.drafted
    }

    /// The slot of the entry that names a page. It makes no call.
    pub fn slot_of<H: Host>(&mut self, _host: &mut H, page: u32) -> Result<Option<u32>, HostFault>
        ensures slot { result ≡ Ok (option_map (slot_place self.old.page_size) (place_of self.old.entries page)) }
        ensures none { IfOk result (λ slot. slot ≡ None → place_of self.old.entries page ≡ None) }
        ensures same { self.new ≡ self.old }
        ensures no_call { _host.new ≡ _host.old }
    {
        match self.entries.place_of(page) {
            Some(place) => Ok(Some(slot_of(self.page_size, place))),
            None => Ok(None),
        }
    }

    /// The page that entry `k` names. It makes no call.
    pub fn entry<H: Host>(&mut self, _host: &mut H, k: u32) -> Result<u32, HostFault>
        requires { k < length self.old.entries }
        ensures page { result ≡ Ok (slice_index self.old.entries k) }
        ensures below { IfOk result (λ page. page < most_pages) }
        ensures apart { AreEntries self.old.entries }
        ensures same { self.new ≡ self.old }
        ensures no_call { _host.new ≡ _host.old }
    {
        Ok(self.entries.page_at(k))
    }

    /// Adds an entry for a page that has none, with its bytes, and answers its slot. The slot is kept for good before the
    /// table names it, and the table too where writes are forced. Where it wants memory nothing has changed. After a fault of
    /// the device the entry is known, and the file's table may lack it.
    pub fn add<H: Host>(
        &mut self,
        host: &mut H,
        page: u32,
        bytes: &[u8],
        forced: bool,
    ) -> Result<u32, RunError>
        requires size { length bytes.now ≡ self.old.page_size }
        requires fresh { place_of self.old.entries page ≡ None }
        requires below { page < most_pages }
        requires none_waits { self.old.drafted ≡ 0 }
        ensures slot { IfOk result (λ slot. slot ≡ slot_place self.old.page_size (length self.old.entries)) }
        ensures known { OnOk result (self.new ≡ record self.old { entries = self.old.entries ++ page ∷ [] }) }
        ensures on_device { result ≡ Err RunError.Device → self.new ≡ record self.old { entries = self.old.entries ++ page ∷ [] } }
        ensures added { IsTrue H.tells → HasTable self.old.page_size ((H.world host.old).files self.old.name) self.old.entries
            → OnOk result (Adds self.old.page_size self.old.entries page bytes.now ((H.world host.old).files self.old.name) ((H.world host.new).files self.old.name)) }

        // At each moment a crash leaves the entry with its page and the slots before it as they read, or the table and its slots as
        // it would have left them before.
        ensures changes { IsTrue H.tells → HasTable self.old.page_size ((H.world host.old).files self.old.name) self.old.entries
            → Changes (H.world host.old) (H.world host.new) (Only self.old.name) (Moved (H.world host.old) self.old.name (AddStep self.old.page_size self.old.entries page bytes.now ((H.world host.old).files self.old.name))) }
        ensures durable { IsTrue H.tells → IsTrue forced → OnOk result (IsDurable (H.world host.new) self.old.name ((H.world host.new).files self.old.name)) }
        ensures on_memory { result ≡ Err RunError.Memory → (self.new ≡ self.old) × (host.new ≡ host.old) }
        ensures log { IsSilent (H.world host.old) (H.world host.new) }
        ensures cause { CountsRun result (H.faults host.old) (H.faults host.new) }
    {
        let place = self.entries.len();
        self.entries.add(page)?;
        put_entry(
            host,
            &self.name,
            &self.entries,
            bytes,
            &mut self.page,
            forced,
        )?;
        Ok(slot_of(self.page_size, place))
    }

    /// Writes the page of an entry into its slot, and keeps it for good where writes are forced.
    pub fn rewrite<H: Host>(
        &mut self,
        host: &mut H,
        slot: u32,
        bytes: &[u8],
        forced: bool,
    ) -> Result<(), HostFault>
        requires size { length bytes.now ≡ self.old.page_size }
        ensures same { self.new ≡ self.old }
        ensures put { IsTrue H.tells → (k : ℕ) → slot ≡ slot_place self.old.page_size k
            → OnOk result (SlotPut self.old.page_size k bytes.now ((H.world host.old).files self.old.name) ((H.world host.new).files self.old.name)) }

        // At each moment a crash leaves the slot with this page or as it was, and the table and every other slot as they were.
        ensures changes { IsTrue H.tells → (k : ℕ) → slot ≡ slot_place self.old.page_size k
            → Changes (H.world host.old) (H.world host.new) (Only self.old.name) (Moved (H.world host.old) self.old.name (SlotStep self.old.page_size k bytes.now)) }
        ensures durable { IsTrue H.tells → IsTrue forced → OnOk result (IsDurable (H.world host.new) self.old.name ((H.world host.new).files self.old.name)) }
        ensures log { IsSilent (H.world host.old) (H.world host.new) }
        ensures cause { CountsFault result (H.faults host.old) (H.faults host.new) }
    {
        rewrite_slot(host, &self.name, slot, bytes, forced)?;
        Ok(())
    }

    /// Fills in the page of an entry, from its slot. Where the file ends before the slot does, zeros stand for the rest.
    pub fn read_slot<H: Host>(
        &mut self,
        host: &mut H,
        slot: u32,
        into: &mut [u8],
    ) -> Result<(), HostFault>
        requires size { length into.old ≡ self.old.page_size }
        ensures same { self.new ≡ self.old }
        ensures page { IsTrue H.tells → (k : ℕ) → slot ≡ slot_place self.old.page_size k
            → OnOk result (into.new ≡ slot_page self.old.page_size ((H.world host.old).files self.old.name) k) }
        ensures quiet { Quiet (H.world host.old) (H.world host.new) }
        ensures reads { IsTrue H.tells → OnOk result ((H.world host.new).reads ≡ (H.world host.old).reads + 1) }
        ensures most_reads { IsTrue H.tells → (H.world host.new).reads ≤ (H.world host.old).reads + 1 }
        ensures cause { CountsFault result (H.faults host.old) (H.faults host.new) }
    {
        into.fill(0);
        host.read_at(&self.name, slot as u64 * self.page_size as u64, into)?;
        Ok(())
    }

    /// Makes the file anew, of one page of zeros, and keeps it for good. It has no entries then.
    pub fn make<H: Host>(&mut self, host: &mut H) -> Result<(), HostFault>
        ensures known { self.new ≡ record self.old { entries = []; drafted = 0 } }
        ensures made { IsTrue H.tells → OnOk result ((H.world host.new).files self.old.name ≡ Some (replicate self.old.page_size 0)) }
        ensures table { IsTrue H.tells → OnOk result (HasTable self.old.page_size ((H.world host.new).files self.old.name) []) }
        ensures durable { IsTrue H.tells → OnOk result (IsDurable (H.world host.new) self.old.name ((H.world host.new).files self.old.name)) }
        ensures changes { IsTrue H.tells
            → Changes (H.world host.old) (H.world host.new) (Only self.old.name) (Remade (H.world host.old) self.old.name (IsBlank self.old.page_size)) }
        ensures log { IsSilent (H.world host.old) (H.world host.new) }
        ensures cause { CountsFault result (H.faults host.old) (H.faults host.new) }
    {
        self.forget();
        make_file(host, &self.name, &mut self.page)?;
        Ok(())
    }

    /// Takes the file away and forgets all entries.
    pub fn clear<H: Host>(&mut self, host: &mut H) -> Result<(), HostFault>
        ensures known { self.new ≡ record self.old { entries = []; drafted = 0 } }
        ensures gone { IsTrue H.tells → OnOk result ((H.world host.new).files self.old.name ≡ None) }
        ensures changes { IsTrue H.tells
            → Changes (H.world host.old) (H.world host.new) (Only self.old.name) (Remade (H.world host.old) self.old.name (λ file. file ≡ None)) }
        ensures log { IsSilent (H.world host.old) (H.world host.new) }
        ensures cause { CountsFault result (H.faults host.old) (H.faults host.new) }
    {
        self.forget();
        remove_file(host, &self.name)?;
        Ok(())
    }

    /// Forgets all entries.
    fn forget(&mut self)
        ensures { self.new ≡ record self.old { entries = []; drafted = 0 } }
    {
        self.entries.clear();
        self.drafted = 0;
    }

    /// Adds an entry for a page that has none, which waits, and answers its slot. It makes no call. Where it wants memory
    /// nothing has changed.
    pub fn draft(&mut self, page: u32) -> Result<u32, RunError>
        requires fresh { place_of self.old.entries page ≡ None }
        requires below { page < most_pages }
        ensures slot { IfOk result (λ slot. slot ≡ slot_place self.old.page_size (length self.old.entries)) }
        ensures drafted { OnOk result (self.new ≡ record self.old { entries = self.old.entries ++ page ∷ []; drafted = self.old.drafted + 1 }) }
        ensures only_memory { IfErr result (λ error. (error ≡ RunError.Memory) × (self.new ≡ self.old)) }
    {
        let place = self.entries.len();
        self.entries.add(page)?;
        self.drafted += 1;
        Ok(slot_of(self.page_size, place))
    }

    /// Brings the drafted entries into the file's table and keeps the file for good, with its slots. The slot of each
    /// drafted entry was written by `rewrite` since it was drafted. Where no entry is drafted it makes no call. After a
    /// fault they are drafted still, and the table has none of them, all, or the first ones.
    pub fn write_entries<H: Host>(&mut self, host: &mut H) -> Result<(), HostFault>
        ensures done { OnOk result (self.new ≡ record self.old { drafted = 0 }) }
        ensures not_done { OnErr result (self.new ≡ self.old) }
        ensures none { self.old.drafted ≡ 0 → IsOk result × (host.new ≡ host.old) }
        ensures written { IsTrue H.tells → (table : List ℕ) → (waiting : List ℕ) → Waits self.old.page_size self.old.entries self.old.drafted table waiting ((H.world host.old).files self.old.name)
            → OnOk result (HasAll self.old.page_size self.old.entries ((H.world host.old).files self.old.name) ((H.world host.new).files self.old.name)) }
        ensures zeros { IsTrue H.tells → 0 < self.old.drafted → (table : List ℕ) → (waiting : List ℕ) → Waits self.old.page_size self.old.entries self.old.drafted table waiting ((H.world host.old).files self.old.name)
            → OnOk result (HasZeros self.old.page_size ((H.world host.new).files self.old.name) (length self.old.entries)) }

        // At each moment a crash leaves the table with the first of the drafted entries too and every slot as it reads, or the table
        // and every slot as it would have left them before.
        ensures changes { IsTrue H.tells → (table : List ℕ) → (waiting : List ℕ) → Waits self.old.page_size self.old.entries self.old.drafted table waiting ((H.world host.old).files self.old.name)
            → Changes (H.world host.old) (H.world host.new) (Only self.old.name) (Moved (H.world host.old) self.old.name (FrontStep self.old.page_size table waiting ((H.world host.old).files self.old.name))) }
        ensures durable { IsTrue H.tells → 0 < self.old.drafted → OnOk result (IsDurable (H.world host.new) self.old.name ((H.world host.new).files self.old.name)) }
        ensures log { IsSilent (H.world host.old) (H.world host.new) }
        ensures cause { CountsFault result (H.faults host.old) (H.faults host.new) }
    {
        if self.drafted == 0 {
            return Ok(());
        }
        put_waiting(
            host,
            &self.name,
            &self.entries,
            self.drafted,
            &mut self.page,
        )?;
        self.drafted = 0;
        Ok(())
    }
}
