// A page of a chain is taken: it is read and tested. Nothing changes.
ghost use Rattle.std.specs.Prelude.{◌≡◌, ◌≢◌, ◌+◌, ◌<◌, ◌≤◌, true, IsTrue, IfErr, IfOk, OnOk, length};
ghost use Rattle.std.specs.List.{list_all};
ghost use Rattle.nb_fields.specs.Places.{is_page_size, most_pages};
ghost use Rattle.nb_host.specs.declared.faults.Fault.TheVariants.{Memory};
ghost use Rattle.nb_host.specs.Causes.{CountsDevice};
ghost use Rattle.nb_model.specs.Image.{page_at};
ghost use Rattle.nb_model.specs.Chains.{is_slot, slots_in, next_in};
ghost use Rattle.nb_model.specs.Trail.{Trail};
ghost use Rattle.nb_state.specs.Open.{IsOpen};
ghost use Rattle.nb_state.specs.Looks.{Looks};
ghost use Rattle.nb_model.specs.Causes.{Tested};
ghost use Rattle.nb_walk.specs.Walks.{chain_by, not_linked};

use crate::chain::Chain;
use crate::slots::{slot_at, slot_count, use_of};
use nb_alloc::read_data;
use nb_fields::layouts::data;
use nb_host::{Fault, Host, Refusal};
use nb_state::Store;

/// Whether a slot of the chain is of the form.
fn is_slot(chain: Chain, slot: &[u8]) -> bool
    requires { length slot.now ≡ 256 }
    ensures { result ≡ is_slot (chain_by chain) slot.now }
{
    let used = use_of(slot);
    if used == 0 {
        return true;
    }
    used == 1 && chain.is_filled(slot)
}

/// Whether all slots of a page of the chain are of the form.
fn are_slots(chain: Chain, page: &[u8]) -> bool
    requires { IsTrue (is_page_size (length page.now)) }
    ensures { result ≡ list_all (is_slot (chain_by chain)) (slots_in page.now) }
{
    let count = slot_count(page);
    let mut slot = 0;
    while slot < count {
        if !is_slot(chain, slot_at(page, slot)) {
            return false;
        }
        slot += 1;
    }
    true
}

/// Reads page `number` of the chain into `page`, which has the size of a page, and answers the page that it is linked to, or 0.
///
/// The refusal is `NotDatabase` of the page, where it isn't one of the chain: it is past the end, or no data page, or of another owner, or one of
/// its slots isn't of the form. It takes one read at most, and no memory.
pub fn read_page<H: Host>(
    store: &mut Store,
    host: &mut H,
    chain: Chain,
    number: u32,
    page: &mut [u8],
) -> Result<u32, Fault>
    requires size { IsTrue (is_page_size (length page.old)) }
    requires room { length page.old ≡ store.old.files.page_size }
    ensures test { (t : Trail) → IsTrue H.tells → IsOpen (H.world host.old) store.old t → Tested result (not_linked (chain_by chain) t.base.image number) }
    ensures page { (t : Trail) → IsTrue H.tells → IsOpen (H.world host.old) store.old t → OnOk result (page.new ≡ page_at t.base.image number) }
    ensures next { IfOk result (λ next. next ≡ next_in page.new) }
    ensures form { OnOk result (list_all (is_slot (chain_by chain)) (slots_in page.new) ≡ true) }
    ensures low { OnOk result (0 < number) }
    ensures high { OnOk result (number < most_pages) }
    ensures below { OnOk result (number < store.old.files.count) }
    ensures sized { length page.new ≡ length page.old }
    ensures looks { Looks H.tells (H.world host.old) (H.world host.new) store.old store.new }
    ensures once { IsTrue H.tells → (H.world host.new).reads ≤ (H.world host.old).reads + 1 }
    ensures cause { CountsDevice result (H.faults host.old) (H.faults host.new) }
    ensures takes_none { IfErr result (λ fault. fault ≢ Memory) }
{
    read_data(store, host, number, chain.owner(), page)?;
    if !are_slots(chain, page) {
        return Err(Fault::Refused(Refusal::NotDatabase { page: number }));
    }
    Ok(data::Next::get(page) as u32)
}
