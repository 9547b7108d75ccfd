// Walks over the chains of data pages, page by page along their links. Nothing changes.
ghost use Rattle.std.specs.Prelude.{◌≡◌, ◌≢◌, ◌+◌, ◌≤◌, IsTrue, IfErr, None, OnOk, length};
ghost use Rattle.nb_host.specs.declared.faults.Fault.TheVariants.{Memory};
ghost use Rattle.nb_host.specs.Causes.{CountsDevice};
ghost use Rattle.nb_model.specs.Causes.{Tested, broken_at};
ghost use Rattle.nb_model.specs.Chains.{Catalogue, spots, pages_of, found_pages};
ghost use Rattle.nb_model.specs.Rows.{chains, pages_of_all, table_chains, used};
ghost use Rattle.nb_model.specs.Trail.{Trail};
ghost use Rattle.nb_state.specs.Open.{IsOpen};
ghost use Rattle.nb_state.specs.Looks.{Looks};
ghost use Rattle.nb_model.specs.Leaks.{reached};
ghost use Rattle.nb_check.specs.Marks.{IsReached};
ghost use Rattle.nb_check.specs.Most.{chains_most};
ghost use Rattle.nb_model.specs.Checks.{chains_cause};
ghost use Rattle.nb_check.specs.Walks.{chains_on};
ghost use Rattle.nb_walk.specs.Walks.{chain_by};

use crate::set::Marks;
use nb_engine::Engine;
use nb_fields::layouts::header;
use nb_host::{Fault, Host, Refusal};
use nb_walk::{Chain, first_page, slot_at, slot_count, use_of};

/// Marks the pages of a chain as reached. The refusal is `NotDatabase` of the first page that breaks the form: a chain that leads back
/// into itself has more pages than the database. Each page of the chain takes one read at most, and where it is broken there are no more reads
/// than pages of the database.
fn mark_chain<H: Host>(
    host: &mut H,
    engine: &mut Engine,
    chain: Chain,
    page: &mut [u8],
    marks: &mut Marks,
) -> Result<(), Fault>
    requires size { length page.old ≡ engine.old.files.page_size }
    ensures test { (t : Trail) → IsTrue H.tells → IsOpen (H.world host.old) engine.old t → Tested result (broken_at (pages_of (chain_by chain) t.base.image)) }
    ensures reached { (t : Trail) → IsTrue H.tells → IsOpen (H.world host.old) engine.old t → OnOk result (IsReached marks.old (found_pages (chain_by chain) t.base.image) marks.new) }
    ensures sized { length page.new ≡ length page.old }
    ensures looks { Looks H.tells (H.world host.old) (H.world host.new) engine.old engine.new }
    ensures once { (t : Trail) → IsTrue H.tells → IsOpen (H.world host.old) engine.old t → OnOk result ((H.world host.new).reads ≤ (H.world host.old).reads + length (found_pages (chain_by chain) t.base.image)) }
    ensures within { IsTrue H.tells → (H.world host.new).reads ≤ (H.world host.old).reads + engine.old.files.count }
    ensures cause { CountsDevice result (H.faults host.old) (H.faults host.new) }
    ensures takes_none { IfErr result (λ fault. fault ≢ Memory) }
{
    let mut number = chain.first();
    let mut left = engine.count();
    while left > 0 {
        let next = engine.chain_read(host, chain, number, page)?;
        marks.reach(number);
        if next == 0 {
            return Ok(());
        }
        number = next;
        left -= 1;
    }
    Err(Fault::Refused(Refusal::NotDatabase { page: number }))
}

/// Marks the pages of the tables that page `listed` of the catalogue names as reached, in its order. The refusal is `NotDatabase` of
/// the first page that breaks the form of the first such chain.
fn mark_listed<H: Host>(
    host: &mut H,
    engine: &mut Engine,
    listed: &[u8],
    page: &mut [u8],
    marks: &mut Marks,
) -> Result<(), Fault>
    requires size { length page.old ≡ engine.old.files.page_size }
    requires listed { length listed.now ≡ length page.old }
    ensures test { (t : Trail) → IsTrue H.tells → IsOpen (H.world host.old) engine.old t → Tested result (chains_cause t.base.image (chains_on listed.now)) }
    ensures reached { (t : Trail) → IsTrue H.tells → IsOpen (H.world host.old) engine.old t → OnOk result (IsReached marks.old (pages_of_all t.base.image (chains_on listed.now)) marks.new) }
    ensures sized { length page.new ≡ length page.old }
    ensures looks { Looks H.tells (H.world host.old) (H.world host.new) engine.old engine.new }
    ensures once { (t : Trail) → IsTrue H.tells → IsOpen (H.world host.old) engine.old t → OnOk result ((H.world host.new).reads ≤ (H.world host.old).reads + length (pages_of_all t.base.image (chains_on listed.now))) }
    ensures within { (t : Trail) → IsTrue H.tells → IsOpen (H.world host.old) engine.old t
        → (H.world host.new).reads ≤ (H.world host.old).reads + length (pages_of_all t.base.image (chains_on listed.now)) + engine.old.files.count }
    ensures cause { CountsDevice result (H.faults host.old) (H.faults host.new) }
    ensures takes_none { IfErr result (λ fault. fault ≢ Memory) }
{
    // Slots are counted by the size of a page, which is one of six.
    let _size = engine.page_size();
    let count = slot_count(listed);
    let mut slot = 0;
    while slot < count {
        let bytes = slot_at(listed, slot);
        slot += 1;
        if use_of(bytes) != 1 {
            continue;
        }
        mark_chain(host, engine, Chain::Rows(first_page(bytes)), page, marks)?;
    }
    Ok(())
}

/// Marks the pages of each table of the catalogue, which is of the form, as reached. The refusal is `NotDatabase` of the first page that
/// breaks the form of the first such chain.
fn mark_tables<H: Host>(
    host: &mut H,
    engine: &mut Engine,
    listed: &mut [u8],
    page: &mut [u8],
    marks: &mut Marks,
) -> Result<(), Fault>
    requires size { length page.old ≡ engine.old.files.page_size }
    requires listed { length listed.old ≡ length page.old }
    ensures test { (t : Trail) → IsTrue H.tells → IsOpen (H.world host.old) engine.old t → broken_at (pages_of Catalogue t.base.image) ≡ None
        → Tested result (chains_cause t.base.image (table_chains (used (spots Catalogue t.base.image)))) }
    ensures reached { (t : Trail) → IsTrue H.tells → IsOpen (H.world host.old) engine.old t → broken_at (pages_of Catalogue t.base.image) ≡ None
        → OnOk result (IsReached marks.old (pages_of_all t.base.image (table_chains (used (spots Catalogue t.base.image)))) marks.new) }
    ensures looks { Looks H.tells (H.world host.old) (H.world host.new) engine.old engine.new }
    ensures once { (t : Trail) → IsTrue H.tells → IsOpen (H.world host.old) engine.old t → broken_at (pages_of Catalogue t.base.image) ≡ None
        → OnOk result ((H.world host.new).reads ≤ (H.world host.old).reads + length (found_pages Catalogue t.base.image) + length (pages_of_all t.base.image (table_chains (used (spots Catalogue t.base.image))))) }
    ensures within { (t : Trail) → IsTrue H.tells → IsOpen (H.world host.old) engine.old t → broken_at (pages_of Catalogue t.base.image) ≡ None
        → (H.world host.new).reads ≤ (H.world host.old).reads + length (found_pages Catalogue t.base.image) + length (pages_of_all t.base.image (table_chains (used (spots Catalogue t.base.image)))) + engine.old.files.count }
    ensures cause { CountsDevice result (H.faults host.old) (H.faults host.new) }
    ensures takes_none { IfErr result (λ fault. fault ≢ Memory) }
{
    let mut number = header::CATALOGUE_PAGE;
    let mut left = engine.count();
    while left > 0 {
        let next = engine.chain_read(host, Chain::Tables, number, listed)?;
        mark_listed(host, engine, listed, page, marks)?;
        if next == 0 {
            return Ok(());
        }
        number = next;
        left -= 1;
    }
    Err(Fault::Refused(Refusal::NotDatabase { page: number }))
}

/// Marks all pages that something reaches: those of the catalogue, of the history, and of each table of the catalogue, as they are now. The refusal is `NotDatabase` of the first page that breaks the form of the first such chain, in this order. Each page of a chain
/// takes one read at most, and each page of the catalogue two.
pub(crate) fn mark_reached<H: Host>(
    host: &mut H,
    engine: &mut Engine,
    listed: &mut [u8],
    page: &mut [u8],
    marks: &mut Marks,
) -> Result<(), Fault>
    requires size { length page.old ≡ engine.old.files.page_size }
    requires listed { length listed.old ≡ length page.old }
    ensures test { (t : Trail) → IsTrue H.tells → IsOpen (H.world host.old) engine.old t → Tested result (chains_cause t.base.image (chains t.base.image)) }
    ensures reached { (t : Trail) → IsTrue H.tells → IsOpen (H.world host.old) engine.old t → OnOk result (IsReached marks.old (reached t.base.image) marks.new) }
    ensures looks { Looks H.tells (H.world host.old) (H.world host.new) engine.old engine.new }
    ensures once { (t : Trail) → IsTrue H.tells → IsOpen (H.world host.old) engine.old t → OnOk result ((H.world host.new).reads ≤ (H.world host.old).reads + length (found_pages Catalogue t.base.image) + length (reached t.base.image)) }
    ensures within { (t : Trail) → IsTrue H.tells → IsOpen (H.world host.old) engine.old t → (H.world host.new).reads ≤ (H.world host.old).reads + chains_most t.base.image + engine.old.files.count }
    ensures cause { CountsDevice result (H.faults host.old) (H.faults host.new) }
    ensures takes_none { IfErr result (λ fault. fault ≢ Memory) }
{
    mark_chain(host, engine, Chain::Tables, page, marks)?;
    mark_chain(host, engine, Chain::Backups, page, marks)?;
    mark_tables(host, engine, listed, page, marks)
}
