// A check of an open database, and giving back the pages that it finds leaked.
ghost use Rattle.std.specs.Prelude.{◌≡◌, ℕ, ◌≢◌, ◌+◌, ◌*◌, ◌≤◌, IsTrue, IfErr, IfOk, IsSome, OnOk, Err, None, false, length};
ghost use Rattle.nb_fields.specs.States.{stalled_state};
ghost use Rattle.nb_host.specs.declared.faults.Fault.TheVariants.{Memory};
ghost use Rattle.nb_host.specs.Causes.{CountsDevice};
ghost use Rattle.nb_page.specs.Quiet.{Quiet};
ghost use Rattle.nb_model.specs.declared.reply.Reply.TheVariants.{Freed};
ghost use Rattle.nb_model.specs.Chains.{Catalogue, found_pages};
ghost use Rattle.nb_model.specs.Image.{image_size};
ghost use Rattle.nb_model.specs.Outcomes.{Seen};
ghost use Rattle.nb_model.specs.Sound.{IsSoundImage};
ghost use Rattle.nb_model.specs.Trail.{Trail};
ghost use Rattle.nb_state.specs.Open.{IsOpen};
ghost use Rattle.nb_state.specs.Looks.{Looks};
ghost use Rattle.nb_model.specs.Causes.{Tested};
ghost use Rattle.nb_state.specs.Does.{Does, Goes};
ghost use Rattle.nb_engine.specs.Tries.{StopsEarly, Tries, WhereMemory};
ghost use Rattle.nb_model.specs.Facts.{unsound};
ghost use Rattle.nb_model.specs.Leaks.{leaked, reached};
ghost use Rattle.nb_check.specs.Passes.{HoldsTaken, AreSized};
ghost use Rattle.nb_check.specs.Findings.{said_of};
ghost use Rattle.nb_check.specs.Most.{check_most};
ghost use Rattle.nb_check.specs.Sets.{has, room_of};
ghost use Rattle.nb_model.specs.Danger.{in_danger};
ghost use Rattle.nb_model.specs.Checks.{check_cause, check_turn, reclaim_turn, reclaimed, unsound_by};

use crate::pass::{Found, pass};
use crate::set::{Marks, PageSet};
use crate::walk::mark_reached;
use crate::{LARGEST_PAGE, Report};
use nb_engine::Engine;
use nb_host::{Fault, Host, Refusal};
use std::alloc::Global;

/// Tests the inventories against the pages, and answers the data pages that are taken as those that are left. The refusal is `Unsound` of the first fact that is
/// broken, and of the lowest page that breaks it.
#[tactic(auto, using(nb_fields::proofs::SizeLaws::size_facts))]
fn taken_data<H: Host>(
    alloc: Global,
    host: &mut H,
    engine: &mut Engine,
    page: &mut [u8],
    map: &mut [u8],
) -> Result<Marks, Fault>
    requires room { length page.old ≡ engine.old.files.page_size }
    requires map { length map.old ≡ engine.old.files.page_size }
    ensures test { (t : Trail) → IsTrue H.tells → IsOpen (H.world host.old) engine.old t → Tested result (unsound_by (unsound t.base.image)) }
    ensures taken { (t : Trail) → IsTrue H.tells → IsOpen (H.world host.old) engine.old t → 5 ≤ length t.base.image → IfOk result (λ marks. HoldsTaken t.base.image (length t.base.image) marks.left) }
    ensures safe { IfOk result (λ marks. (p : ℕ) → has marks.danger p ≡ false) }
    ensures left_room { IfOk result (λ marks. engine.old.files.count ≤ room_of marks.left) }
    ensures danger_room { IfOk result (λ marks. engine.old.files.count ≤ room_of marks.danger) }
    ensures sizes { (t : Trail) → IsTrue H.tells → IsOpen (H.world host.old) engine.old t → OnOk result (AreSized t.base.image (length t.base.image) (image_size t.base.image)) }
    ensures looks { Looks H.tells (H.world host.old) (H.world host.new) engine.old engine.new }
    ensures once { IsTrue H.tells → (H.world host.new).reads ≤ (H.world host.old).reads + engine.old.files.count + 3 }
    ensures cause { CountsDevice result (H.faults host.old) (H.faults host.new) }
{
    let mut buffer = [0; LARGEST_PAGE];
    let entries = &mut buffer[..engine.page_size() as usize];
    let taken = PageSet::new(alloc, engine.count())?;
    let danger = PageSet::new(alloc, engine.count())?;
    let mut found = Found {
        broken: None,
        taken,
    };
    pass(host, engine, page, map, entries, &mut found)?;
    let Found { broken, taken } = found;
    if let Some(broken) = broken {
        return Err(Fault::Refused(Refusal::Unsound {
            fact: broken.fact.number(),
            page: broken.page,
        }));
    }
    Ok(Marks {
        left: taken,
        danger,
    })
}

/// What a check has found, where the inventories and the chains agree with the pages.
#[derive(Drop)]
pub struct Findings {
    /// The leaked pages: the data pages that are taken and that no chain reaches.
    pub leaked: Report,
    /// The pages in danger: a chain reaches them, and they are free or another chain reaches them too. What takes a new page, or writes through
    /// the other chain, may write over them.
    pub in_danger: Report,
}

/// Tests whether the inventories, the chains and the pages of the database as it is seen agree, and answers its leaked pages, the data pages
/// that are taken and that no chain of the catalogue, of the history or of a table reaches, and the pages in danger, which such a chain reaches
/// and which are free, or which two chains reach. It changes nothing but which pages are in memory.
///
/// Each page takes one read at most, page 0 and the first two inventory pages two; the pages of the chains take one more, and those of
/// the catalogue two more. A chain that is broken takes no more reads than the database has pages, and none is walked over after it. The memory,
/// two bits for each page, is taken before the first read.
///
/// The refusals are `Unsound` of the lowest fact that fails and of the lowest page at which it does, and `NotDatabase` of the first page that
/// breaks the form of a chain: of the catalogue, the history, and then of the tables in the catalogue's order.
#[tactic(auto, using(nb_fields::proofs::SizeLaws::size_facts))]
pub fn check<H: Host>(alloc: Global, host: &mut H, engine: &mut Engine) -> Result<Findings, Fault>
    ensures turn { (s : Seen) (t : Trail) → IsTrue H.tells → t.base ≡ s.base → IsOpen (H.world host.old) engine.old t
        → Does said_of result (H.world host.old) (H.world host.new) engine.old engine.new t (check_turn s) }
    ensures looks { Looks H.tells (H.world host.old) (H.world host.new) engine.old engine.new }
    ensures goes { Goes engine.old engine.new }
    ensures test { (t : Trail) → IsTrue H.tells → IsOpen (H.world host.old) engine.old t → Tested result (check_cause t.base.image) }
    ensures leaked { (t : Trail) → IsTrue H.tells → IsOpen (H.world host.old) engine.old t → IfOk result (λ findings. findings.leaked ≡ leaked t.base.image) }
    ensures in_danger { (t : Trail) → IsTrue H.tells → IsOpen (H.world host.old) engine.old t → IfOk result (λ findings. findings.in_danger ≡ in_danger t.base.image) }
    ensures sound { (t : Trail) → IsTrue H.tells → IsOpen (H.world host.old) engine.old t → OnOk result (IsSoundImage t.base.image) }
    ensures once { (t : Trail) → IsTrue H.tells → IsOpen (H.world host.old) engine.old t
        → OnOk result ((H.world host.new).reads ≤ (H.world host.old).reads + engine.old.files.count + 3 + length (found_pages Catalogue t.base.image) + length (reached t.base.image)) }
    ensures within { (t : Trail) → IsTrue H.tells → IsOpen (H.world host.old) engine.old t → (H.world host.new).reads ≤ (H.world host.old).reads + check_most engine.old.files.count t.base.image }
    ensures early { (t : Trail) → IsTrue H.tells → IsOpen (H.world host.old) engine.old t → IsSome (unsound t.base.image) → (H.world host.new).reads ≤ (H.world host.old).reads + engine.old.files.count + 3 }
    ensures cause { CountsDevice result (H.faults host.old) (H.faults host.new) }
{
    let size = engine.page_size() as usize;
    // There are no more pages than a database may have.
    let _count = engine.count();
    let mut first = [0; LARGEST_PAGE];
    let mut second = [0; LARGEST_PAGE];
    let page = &mut first[..size];
    let other = &mut second[..size];
    let mut marks = taken_data(alloc, host, engine, page, other)?;
    mark_reached(host, engine, other, page, &mut marks)?;
    let Marks { left, danger } = marks;
    Ok(Findings {
        leaked: Report::of(left),
        in_danger: Report::of(danger),
    })
}

/// Gives each page of the report back, in rising order.
fn give_back<H: Host>(host: &mut H, engine: &mut Engine, report: &Report) -> Result<(), Fault>
    ensures tries { (t : Trail) → IsTrue H.tells → IsOpen (H.world host.old) engine.old t → IsSoundImage t.base.image → report.now ≡ leaked t.base.image
        → Tries result (H.world host.old) (H.world host.new) engine.old engine.new t None (reclaimed t.base.image).strokes }
    ensures goes { Goes engine.old engine.new }
    ensures once { (t : Trail) → IsTrue H.tells → IsOpen (H.world host.old) engine.old t → report.now ≡ leaked t.base.image
        → (H.world host.new).reads ≤ (H.world host.old).reads + 2 * length (leaked t.base.image) }
    ensures cause { CountsDevice result (H.faults host.old) (H.faults host.new) }
    ensures takes_none { engine.old.files.state ≢ stalled_state → IfErr result (λ fault. fault ≢ Memory) }
{
    let count = engine.count();
    for number in 0..count {
        if !report.has(number) {
            continue;
        }
        engine.data_free(host, number)?;
    }
    Ok(())
}

/// Gives each leaked page of the database back, in rising order, and answers how many there were. A page that is given back stays as it
/// is: its inventory page says from then on that it is free. The leaked pages are those of the database as it is seen at the call, with the
/// tables that the catalogue has then.
///
/// Each page that is given back takes two reads more than a check.
///
/// The refusals are `Access`, and those of `check`. A refused call changes nothing, and so does one that ends before the first page is
/// given back. Want of memory ends it later in the stalled state alone, where the difference file grows by a page: then, as after a crash or
/// a fault, the last of the leaked pages are still leaked, and nothing else has changed.
pub fn reclaim<H: Host>(alloc: Global, host: &mut H, engine: &mut Engine) -> Result<u32, Fault>
    ensures turn { (s : Seen) (t : Trail) → IsTrue H.tells → t.base ≡ s.base → IsOpen (H.world host.old) engine.old t
        → Does Freed result (H.world host.old) (H.world host.new) engine.old engine.new t (reclaim_turn s) }
    ensures goes { Goes engine.old engine.new }
    ensures once { (t : Trail) → IsTrue H.tells → IsOpen (H.world host.old) engine.old t
        → OnOk result ((H.world host.new).reads ≤ (H.world host.old).reads + engine.old.files.count + 3 + length (found_pages Catalogue t.base.image) + length (reached t.base.image) + 2 * length (leaked t.base.image)) }
    ensures within { (t : Trail) → IsTrue H.tells → IsOpen (H.world host.old) engine.old t → (H.world host.new).reads ≤ (H.world host.old).reads + check_most engine.old.files.count t.base.image + 2 * length (leaked t.base.image) }
    ensures cause { CountsDevice result (H.faults host.old) (H.faults host.new) }
    // Where memory is wanted a prefix of the pages was given back, and not all, if there were any.
    ensures short { (s : Seen) (t : Trail) → IsTrue H.tells → t.base ≡ s.base → IsOpen (H.world host.old) engine.old t
        → WhereMemory result (StopsEarly (H.world host.old) (H.world host.new) engine.old engine.new t (reclaim_turn s).strokes) }
    // Outside the stalled state memory is wanted before the first page is given back, or not at all.
    ensures on_memory { engine.old.files.state ≢ stalled_state → result ≡ Err Memory → Quiet (H.world host.old) (H.world host.new) }
{
    if engine.store().is_read_only() {
        return Err(Fault::Refused(Refusal::Access { found: 1 }));
    }
    let findings = check(alloc, host, engine)?;
    give_back(host, engine, &findings.leaked)?;
    Ok(findings.leaked.count())
}
