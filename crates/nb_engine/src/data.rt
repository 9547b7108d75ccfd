// Data pages, of which chains are made, are read, written and given back.
ghost use Rattle.std.specs.Prelude.{◌≡◌, ◌≢◌, ◌+◌, ◌<◌, ◌≤◌, ◌++◌, true, IsTrue, IfErr, IfOk, OnOk, length, take, drop};
ghost use Rattle.std.specs.List.{list_all};
ghost use Rattle.nb_fields.specs.Bytes.{with_part};
ghost use Rattle.nb_fields.specs.Places.{is_page_size, most_pages};
ghost use Rattle.nb_fields.specs.States.{stalled_state};
ghost use Rattle.nb_host.specs.declared.faults.Fault.TheVariants.{Memory};
ghost use Rattle.nb_host.specs.Causes.{CountsDevice, CountsFault};
ghost use Rattle.nb_model.specs.Causes.{Tested, lowest_broken};
ghost use Rattle.nb_model.specs.Chains.{is_slot, slots_in, next_in};
ghost use Rattle.nb_model.specs.Forms.{drafted, give_page};
ghost use Rattle.nb_model.specs.Image.{page_at};
ghost use Rattle.nb_model.specs.Trail.{Trail};
ghost use Rattle.nb_state.specs.Open.{IsOpen};
ghost use Rattle.nb_state.specs.Looks.{Looks};
ghost use Rattle.nb_state.specs.Does.{Goes};
ghost use Rattle.nb_alloc.specs.Behind.{entry_broken, give_broken};
ghost use Rattle.nb_alloc.specs.Find.{need_cause};
ghost use Rattle.nb_alloc.specs.Data.{not_data, put_data, data_cause};
ghost use Rattle.nb_alloc.specs.Mark.{mark_cause};
ghost use Rattle.nb_alloc.specs.Put.{Reads};
ghost use Rattle.nb_alloc.specs.Tries.{Tries};
ghost use Rattle.nb_walk.specs.Walks.{chain_by, not_linked};

use crate::Engine;
use nb_alloc::{
    ScnPage, find_lacking, is_there, lower_page, mark, put_page, read_data, read_system,
};
use nb_fields::PageKind;
use nb_fields::layouts::head;
use nb_host::{Fault, Host, HostFault};
use nb_pip::{covers, place_of};
use nb_state::Store;
use nb_walk::{Chain, read_page};

/// Takes over what these bytes have after the head of a page.
fn put_behind(page: &mut [u8], bytes: &[u8])
    requires head { 16 ≤ length page.old }
    requires same { length bytes.now ≡ length page.old }
    ensures { page.new ≡ take 16 page.old ++ drop 16 bytes.now }
{
    page[head::LENGTH..].copy_from_slice(&bytes[head::LENGTH..]);
}

/// Writes page `number`, a data page, with what these bytes have after the head. The refusals are `NotDatabase` of the page, where it is
/// none, and of its SCN page, in this order.
fn write_data<H: Host>(
    store: &mut Store,
    host: &mut H,
    number: u32,
    bytes: &[u8],
    page: &mut [u8],
    scn_page: &mut ScnPage,
) -> Result<(), Fault>
    requires size { IsTrue (is_page_size (length page.old)) }
    requires room { length page.old ≡ store.old.files.page_size }
    requires scn_room { length scn_page.old ≡ store.old.files.page_size }
    requires same { length bytes.now ≡ store.old.files.page_size }
    requires low { 0 < number }
    ensures tries { (t : Trail) → IsTrue H.tells → IsOpen (H.world host.old) store.old t
        → Tries result (H.world host.old) (H.world host.new) store.old store.new t (data_cause t.base.image number) (put_data number bytes.now t.base.image).strokes }
    ensures goes { Goes store.old store.new }
    ensures scn_room { length scn_page.new ≡ length scn_page.old }
    ensures cause { CountsDevice result (H.faults host.old) (H.faults host.new) }
    ensures takes_none { store.old.files.state ≢ stalled_state → IfErr result (λ fault. fault ≢ Memory) }
{
    // A page that is read is below the length, and so below the most pages that there may be.
    let _count = store.count();
    read_system(store, host, number, PageKind::Data, page)?;
    put_behind(page, bytes);
    put_page(store, host, number, PageKind::Data, page, scn_page)
}

/// Writes these bytes into a page from place `at` on.
fn put_bytes(page: &mut [u8], at: usize, bytes: &[u8])
    requires { at + length bytes.now ≤ length page.old }
    ensures { page.new ≡ with_part at bytes.now page.old }
{
    page[at..at + bytes.len()].copy_from_slice(bytes);
}

/// Writes these bytes into page `number`, a data page, from place `at` on, which is after the head. The refusals are `NotDatabase` of the page,
/// where it is none, and of its SCN page, in this order.
fn change_data<H: Host>(
    store: &mut Store,
    host: &mut H,
    number: u32,
    at: usize,
    bytes: &[u8],
    page: &mut [u8],
    scn_page: &mut ScnPage,
) -> Result<(), Fault>
    requires size { IsTrue (is_page_size (length page.old)) }
    requires room { length page.old ≡ store.old.files.page_size }
    requires scn_room { length scn_page.old ≡ store.old.files.page_size }
    requires low { 0 < number }
    requires behind { 16 ≤ at }
    requires inside { at + length bytes.now ≤ store.old.files.page_size }
    ensures tries { (t : Trail) → IsTrue H.tells → IsOpen (H.world host.old) store.old t
        → Tries result (H.world host.old) (H.world host.new) store.old store.new t (data_cause t.base.image number) (put_data number (with_part at bytes.now (page_at t.base.image number)) t.base.image).strokes }
    ensures goes { Goes store.old store.new }
    ensures scn_room { length scn_page.new ≡ length scn_page.old }
    ensures once { IsTrue H.tells → (H.world host.new).reads ≤ (H.world host.old).reads + 2 }
    ensures cause { CountsDevice result (H.faults host.old) (H.faults host.new) }
    ensures takes_none { store.old.files.state ≢ stalled_state → IfErr result (λ fault. fault ≢ Memory) }
{
    // A page that is read is below the length, and so below the most pages that there may be.
    let _count = store.count();
    read_system(store, host, number, PageKind::Data, page)?;
    put_bytes(page, at, bytes);
    put_page(store, host, number, PageKind::Data, page, scn_page)
}

impl Engine {
    /// Reads page `number`, a data page of that owner. It takes one read at most.
    ///
    /// The refusal is `NotDatabase` of the page, where it is past the end, of another kind, or of another owner.
    pub fn data_read<H: Host>(
        &mut self,
        host: &mut H,
        number: u32,
        owner: u32,
        into: &mut [u8],
    ) -> Result<(), Fault>
        requires size { length into.old ≡ self.old.files.page_size }
        ensures reads { (t : Trail) → IsTrue H.tells → IsOpen (H.world host.old) self.old t → Reads result t.base.image (not_data t.base.image owner number) number into.new }
        ensures low { OnOk result (0 < number) }
        ensures high { OnOk result (number < most_pages) }
        ensures looks { Looks H.tells (H.world host.old) (H.world host.new) self.old self.new }
        ensures once { IsTrue H.tells → (H.world host.new).reads ≤ (H.world host.old).reads + 1 }
        ensures cause { CountsDevice result (H.faults host.old) (H.faults host.new) }
        ensures takes_none { IfErr result (λ fault. fault ≢ Memory) }
    {
        read_data(&mut self.store, host, number, owner, into)
    }

    /// Reads page `number` of the chain into `page`, and answers the page that it is linked to, or 0. It takes one read at most, and no memory.
    ///
    /// The refusal is `NotDatabase` of the page, where it isn't one of the chain: it is past the end, or no data page, or of another owner, or one
    /// of its slots isn't of the form.
    pub fn chain_read<H: Host>(
        &mut self,
        host: &mut H,
        chain: Chain,
        number: u32,
        page: &mut [u8],
    ) -> Result<u32, Fault>
        requires size { length page.old ≡ self.old.files.page_size }
        ensures test { (t : Trail) → IsTrue H.tells → IsOpen (H.world host.old) self.old t → Tested result (not_linked (chain_by chain) t.base.image number) }
        ensures page { (t : Trail) → IsTrue H.tells → IsOpen (H.world host.old) self.old t → OnOk result (page.new ≡ page_at t.base.image number) }
        ensures next { IfOk result (λ next. next ≡ next_in page.new) }
        ensures form { OnOk result (list_all (is_slot (chain_by chain)) (slots_in page.new) ≡ true) }
        ensures low { OnOk result (0 < number) }
        ensures high { OnOk result (number < most_pages) }
        ensures sized { length page.new ≡ length page.old }
        ensures looks { Looks H.tells (H.world host.old) (H.world host.new) self.old self.new }
        ensures once { IsTrue H.tells → (H.world host.new).reads ≤ (H.world host.old).reads + 1 }
        ensures cause { CountsDevice result (H.faults host.old) (H.faults host.new) }
        ensures takes_none { IfErr result (λ fault. fault ≢ Memory) }
    {
        read_page(&mut self.store, host, chain, number, page)
    }

    /// Writes page `number`, a data page. Of the bytes that are given those after the head count: the next page, the owner and the slots.
    /// The head is that of the page as it stands, with its generation raised and the current SCN. The SCN entry of the page is raised before,
    /// where that is below the current SCN. It wants memory in the stalled state alone, and has raised the entry at most then.
    ///
    /// The refusals are `NotDatabase` of the page, where it is past the end or no data page, and of its SCN page, in this order. A refused
    /// call changes nothing.
    pub fn data_write<H: Host>(
        &mut self,
        host: &mut H,
        number: u32,
        page: &[u8],
    ) -> Result<(), Fault>
        requires size { length page.now ≡ self.old.files.page_size }
        requires low { 0 < number }
        ensures tries { (t : Trail) → IsTrue H.tells → IsOpen (H.world host.old) self.old t
            → Tries result (H.world host.old) (H.world host.new) self.old self.new t (data_cause t.base.image number) (put_data number page.now t.base.image).strokes }
        ensures goes { Goes self.old self.new }
        ensures cause { CountsDevice result (H.faults host.old) (H.faults host.new) }
        ensures takes_none { self.old.files.state ≢ stalled_state → IfErr result (λ fault. fault ≢ Memory) }
    {
        write_data(
            &mut self.store,
            host,
            number,
            page,
            &mut self.page,
            &mut self.scn_page,
        )
    }

    /// Writes these bytes into page `number`, a data page, from place `at` on, which is after the head: so a slot is changed. The rest of the page
    /// is as it stands, but for the generation, which is raised, and the SCN, which is the current one. The SCN entry of the page is raised
    /// before, where that is below the current SCN. It takes two reads at most, one of them of the page, and wants memory in the stalled state
    /// alone, and has raised the entry at most then.
    ///
    /// The refusals are `NotDatabase` of the page, where it is past the end or no data page, and of its SCN page, in this order. A refused
    /// call changes nothing.
    pub fn data_put<H: Host>(
        &mut self,
        host: &mut H,
        number: u32,
        at: usize,
        bytes: &[u8],
    ) -> Result<(), Fault>
        requires low { 0 < number }
        requires behind { 16 ≤ at }
        requires inside { at + length bytes.now ≤ self.old.files.page_size }
        ensures tries { (t : Trail) → IsTrue H.tells → IsOpen (H.world host.old) self.old t
            → Tries result (H.world host.old) (H.world host.new) self.old self.new t (data_cause t.base.image number) (put_data number (with_part at bytes.now (page_at t.base.image number)) t.base.image).strokes }
        ensures goes { Goes self.old self.new }
        ensures once { IsTrue H.tells → (H.world host.new).reads ≤ (H.world host.old).reads + 2 }
        ensures cause { CountsDevice result (H.faults host.old) (H.faults host.new) }
        ensures takes_none { self.old.files.state ≢ stalled_state → IfErr result (λ fault. fault ≢ Memory) }
    {
        change_data(
            &mut self.store,
            host,
            number,
            at,
            bytes,
            &mut self.page,
            &mut self.scn_page,
        )
    }

    /// Gives page `number` back: its inventory page says from then on that it is free. The page itself stays as it is. The SCN entry of the
    /// inventory page is raised before, where that is below the current SCN. It takes two reads at most, and wants memory in the stalled
    /// state alone, and has raised the entry at most then.
    ///
    /// The refusals are `NotDatabase` of the inventory page and of the SCN page of that, in this order. A refused call changes nothing.
    pub fn data_free<H: Host>(&mut self, host: &mut H, number: u32) -> Result<(), Fault>
        requires high { number < most_pages }
        ensures tries { (t : Trail) → IsTrue H.tells → IsOpen (H.world host.old) self.old t
            → Tries result (H.world host.old) (H.world host.new) self.old self.new t (mark_cause t.base.image number) (give_page number (drafted t.base.image)).strokes }
        ensures goes { Goes self.old self.new }
        ensures once { IsTrue H.tells → (H.world host.new).reads ≤ (H.world host.old).reads + 2 }
        ensures cause { CountsDevice result (H.faults host.old) (H.faults host.new) }
        ensures takes_none { self.old.files.state ≢ stalled_state → IfErr result (λ fault. fault ≢ Memory) }
    {
        mark(
            &mut self.store,
            host,
            number,
            true,
            &mut self.map,
            &mut self.scn_page,
        )
    }

    /// The SCN page that writing page `number` changes, where that isn't of its kind. It changes nothing but which pages are in memory.
    pub fn data_ready<H: Host>(
        &mut self,
        host: &mut H,
        number: u32,
    ) -> Result<Option<u32>, HostFault>
        requires low { 0 < number }
        requires high { number < most_pages }
        ensures value { (t : Trail) → IsTrue H.tells → IsOpen (H.world host.old) self.old t → IfOk result (λ lacking. need_cause lacking ≡ lowest_broken (entry_broken t.base.image number)) }
        ensures looks { Looks H.tells (H.world host.old) (H.world host.new) self.old self.new }
        ensures cause { CountsFault result (H.faults host.old) (H.faults host.new) }
    {
        find_lacking(
            &mut self.store,
            host,
            number,
            &mut self.map,
            &mut self.scn_page,
        )
    }

    /// The lowest page that isn't of its kind, of those that giving page `number` back changes: its inventory page, and the SCN page of that. It
    /// changes nothing but which pages are in memory.
    pub fn free_ready<H: Host>(
        &mut self,
        host: &mut H,
        number: u32,
    ) -> Result<Option<u32>, HostFault>
        requires high { number < most_pages }
        ensures value { (t : Trail) → IsTrue H.tells → IsOpen (H.world host.old) self.old t → IfOk result (λ lacking. need_cause lacking ≡ lowest_broken (give_broken t.base.image number)) }
        ensures looks { Looks H.tells (H.world host.old) (H.world host.new) self.old self.new }
        ensures cause { CountsFault result (H.faults host.old) (H.faults host.new) }
    {
        let page_size = self.store.page_size();
        let (k, _) = covers(page_size, number);
        let place = place_of(page_size, k);
        let lacking = find_lacking(
            &mut self.store,
            host,
            place,
            &mut self.map,
            &mut self.scn_page,
        )?;
        let there = is_there(
            &mut self.store,
            host,
            place,
            &mut self.map,
            &mut self.scn_page,
        )?;
        if there {
            return Ok(lacking);
        }
        Ok(Some(lower_page(lacking, place)))
    }
}
