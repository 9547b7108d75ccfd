// Room for the two kinds of inventory pages that statements read and change.
ghost use Rattle.std.specs.Prelude.{◌≡◌, ◌≢◌, ◌↔◌, ◌+◌, ◌*◌, ◌<◌, ◌≤◌, IsTrue, IfOk, IfErr, OnOk, MatchOption, false, length, drop, slice_index};
ghost use Rattle.nb_fields.specs.Bytes.{bytes_of, with_part, is_zeros};
ghost use Rattle.nb_fields.specs.Page.{stamped};
ghost use Rattle.nb_fields.specs.Places.{is_page_size, entries_in, bits_in};
ghost use Rattle.nb_fields.specs.Kinds.{inventory_kind, scn_kind};
ghost use Rattle.nb_host.specs.declared.faults.Fault.TheVariants.{Memory};
ghost use Rattle.nb_host.specs.Causes.{CountsDevice};
ghost use Rattle.nb_pip.specs.Bits.{bits, AreUsed, IsLowestFree};
ghost use Rattle.nb_scn.specs.Entries.{entries};
ghost use Rattle.nb_model.specs.Causes.{not_kind};
ghost use Rattle.nb_model.specs.Forms.{with_bit};
ghost use Rattle.nb_model.specs.Trail.{Trail};
ghost use Rattle.nb_state.specs.Open.{IsOpen};
ghost use Rattle.nb_state.specs.Looks.{Looks};
ghost use Rattle.nb_alloc.specs.Put.{Reads};
ghost use Rattle.nb_alloc.specs.Mark.{bit_for};

use crate::reads::read_system;
use nb_fields::PageKind;
use nb_host::{Fault, Host};
use nb_page::stamp;
use nb_state::Store;
use std::alloc::{AllocError, Global};
use std::marker::Model;

/// Room for one SCN inventory page. Contracts see its bytes.
#[derive(Drop)]
pub struct ScnPage {
    bytes: Vec<u8>,
}

impl Model for ScnPage {
    ghost use Rattle.std.specs.Prelude.{ℕ, List, IsTrue, length};
    ghost use Rattle.nb_fields.specs.Places.{is_page_size};

    ghost Value = { List ℕ };

    ghost view = { λ p. p.bytes.items };

    ghost invariant = { λ p. IsTrue (is_page_size (length p.bytes.items)) };
}

impl ScnPage {
    /// Room for a page of that many bytes. The error is want of memory.
    pub fn new(alloc: Global, page_size: u32) -> Result<ScnPage, AllocError>
        requires { IsTrue (is_page_size page_size) }
        ensures { IfOk result (λ room. length room ≡ page_size) }
    {
        let bytes = vec![in alloc; 0; page_size as usize]?;
        Ok(ScnPage { bytes })
    }

    pub(crate) fn as_slice(&self) -> &[u8]
        ensures { result.now ≡ self.now }
    {
        self.bytes.as_slice()
    }

    /// Reads page `place`, which has to be an SCN inventory page. The refusal is `NotDatabase` of it, where there is none; what is held after an
    /// error isn't said. It takes one read at most where that isn't page 0.
    pub fn read<H: Host>(
        &mut self,
        store: &mut Store,
        host: &mut H,
        place: u32,
    ) -> Result<(), Fault>
        requires room { length self.old ≡ store.old.files.page_size }
        ensures reads { (t : Trail) → IsTrue H.tells → IsOpen (H.world host.old) store.old t → Reads result t.base.image (not_kind t.base.image scn_kind place) place self.new }
        ensures below { OnOk result (place < store.old.files.count) }
        ensures room { length self.new ≡ length self.old }
        ensures looks { Looks H.tells (H.world host.old) (H.world host.new) store.old store.new }
        ensures once { IsTrue H.tells → 0 < place → (H.world host.new).reads ≤ (H.world host.old).reads + 1 }
        ensures cause { CountsDevice result (H.faults host.old) (H.faults host.new) }
        ensures takes_none { IfErr result (λ fault. fault ≢ Memory) }
    {
        read_system(
            store,
            host,
            place,
            PageKind::ScnInventory,
            self.bytes.as_mut_slice(),
        )
    }

    /// Entry `index`.
    pub(crate) fn entry(&self, index: u32) -> u32
        requires { index < entries_in (length self.now) }
        ensures { result ≡ slice_index (entries self.now) index }
    {
        nb_scn::entry(self.bytes.as_slice(), index)
    }

    /// Raises entry `index`, where it is below, to `scn`, and stamps the page, which stands at `place`.
    pub(crate) fn raise(&mut self, index: u32, scn: u32, place: u32)
        requires { index < entries_in (length self.old) }
        ensures page { slice_index (entries self.old) index < scn → self.new ≡ stamped self.old scn_kind (drop 16 (with_part (32 + 4 * index) (bytes_of 4 scn) self.old)) scn place }
        ensures some { is_zeros self.new ≡ false }
        ensures room { length self.new ≡ length self.old }
    {
        put_entry(self.bytes.as_mut_slice(), index, scn, place);
    }
}

/// Room for one page inventory page. Contracts see its bytes.
#[derive(Drop)]
pub struct InventoryPage {
    bytes: Vec<u8>,
}

impl Model for InventoryPage {
    ghost use Rattle.std.specs.Prelude.{ℕ, List, IsTrue, length};
    ghost use Rattle.nb_fields.specs.Places.{is_page_size};

    ghost Value = { List ℕ };

    ghost view = { λ p. p.bytes.items };

    ghost invariant = { λ p. IsTrue (is_page_size (length p.bytes.items)) };
}

impl InventoryPage {
    /// Room for a page of that many bytes. The error is want of memory.
    pub fn new(alloc: Global, page_size: u32) -> Result<InventoryPage, AllocError>
        requires { IsTrue (is_page_size page_size) }
        ensures { IfOk result (λ room. length room ≡ page_size) }
    {
        let bytes = vec![in alloc; 0; page_size as usize]?;
        Ok(InventoryPage { bytes })
    }

    pub(crate) fn as_slice(&self) -> &[u8]
        ensures { result.now ≡ self.now }
    {
        self.bytes.as_slice()
    }

    /// Reads page `place`, which has to be a page inventory page. The refusal is `NotDatabase` of it, where there is none; what is held after an
    /// error isn't said. It takes one read at most where that isn't page 0.
    pub fn read<H: Host>(
        &mut self,
        store: &mut Store,
        host: &mut H,
        place: u32,
    ) -> Result<(), Fault>
        requires room { length self.old ≡ store.old.files.page_size }
        ensures reads { (t : Trail) → IsTrue H.tells → IsOpen (H.world host.old) store.old t → Reads result t.base.image (not_kind t.base.image inventory_kind place) place self.new }
        ensures below { OnOk result (place < store.old.files.count) }
        ensures room { length self.new ≡ length self.old }
        ensures looks { Looks H.tells (H.world host.old) (H.world host.new) store.old store.new }
        ensures once { IsTrue H.tells → 0 < place → (H.world host.new).reads ≤ (H.world host.old).reads + 1 }
        ensures cause { CountsDevice result (H.faults host.old) (H.faults host.new) }
        ensures takes_none { IfErr result (λ fault. fault ≢ Memory) }
    {
        read_system(
            store,
            host,
            place,
            PageKind::Inventory,
            self.bytes.as_mut_slice(),
        )
    }

    /// Whether bit `index` says that its page is used.
    pub(crate) fn is_used(&self, index: u32) -> bool
        requires { index < bits_in (length self.now) }
        ensures { IsTrue result ↔ (slice_index (bits self.now) index ≡ 0) }
    {
        nb_pip::is_used(self.bytes.as_slice(), index)
    }

    /// The lowest bit from `from` on and below `below` that says free.
    pub(crate) fn lowest_free(&self, from: u32, below: u32) -> Option<u32>
        requires { below ≤ bits_in (length self.now) }
        ensures { MatchOption result (AreUsed (bits self.now) from below) (IsLowestFree (bits self.now) from below) }
    {
        nb_pip::lowest_free(self.bytes.as_slice(), from, below)
    }

    /// Sets bit `index` to free, or to taken, and stamps the page, which stands at `place`.
    pub(crate) fn set(&mut self, index: u32, free: bool, scn: u32, place: u32)
        requires { index < bits_in (length self.old) }
        ensures page { self.new ≡ stamped self.old inventory_kind (drop 16 (with_bit index (bit_for free) self.old)) scn place }
        ensures some { is_zeros self.new ≡ false }
        ensures room { length self.new ≡ length self.old }
    {
        put_bit(self.bytes.as_mut_slice(), index, free, scn, place);
    }
}

/// Sets bit `index` of the inventory page `map` to free, or to taken.
fn set_bit(map: &mut [u8], index: u32, free: bool)
    requires size { IsTrue (is_page_size (length map.old)) }
    requires index { index < bits_in (length map.old) }
    ensures { map.new ≡ with_bit index (bit_for free) map.old }
{
    if free {
        nb_pip::give(map, index);
    } else {
        nb_pip::take(map, index);
    }
}

/// Sets bit `index` of an inventory page, and stamps it.
fn put_bit(map: &mut [u8], index: u32, free: bool, scn: u32, place: u32)
    requires size { IsTrue (is_page_size (length map.old)) }
    requires index { index < bits_in (length map.old) }
    ensures page { map.new ≡ stamped map.old inventory_kind (drop 16 (with_bit index (bit_for free) map.old)) scn place }
    ensures some { is_zeros map.new ≡ false }
{
    set_bit(map, index, free);
    stamp(map, PageKind::Inventory.code(), scn, place);
}

/// Raises entry `index` of an SCN inventory page, where it is below, to `scn`, and stamps it.
fn put_entry(page: &mut [u8], index: u32, scn: u32, place: u32)
    requires size { IsTrue (is_page_size (length page.old)) }
    requires index { index < entries_in (length page.old) }
    ensures page { slice_index (entries page.old) index < scn → page.new ≡ stamped page.old scn_kind (drop 16 (with_part (32 + 4 * index) (bytes_of 4 scn) page.old)) scn place }
    ensures some { is_zeros page.new ≡ false }
{
    nb_scn::raise(page, index, scn);
    stamp(page, PageKind::ScnInventory.code(), scn, place);
}
