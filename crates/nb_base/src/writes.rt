// A page is written into the file that owns it, or into both.
ghost use Rattle.std.specs.Prelude.{◌≡◌, ◌≢◌, ◌⊎◌, ◌++◌, ◌*◌, ◌<◌, ◌≤◌, ◌||◌, ℕ, List, [], ◌∷◌, length, IsTrue, OnOk, Some, None, nat_le};
ghost use Rattle.nb_fields.specs.Places.{is_page_size, most_pages};
ghost use Rattle.nb_fields.specs.Table.{slot_place};
ghost use Rattle.nb_fields.specs.States.{normal_state, stalled_state, merge_state};
ghost use Rattle.nb_host.specs.Calls.{IsSilent};
ghost use Rattle.nb_host.specs.Files.{with_file, with_page};
ghost use Rattle.nb_host.specs.Causes.{CountsFault, CountsRun};
ghost use Rattle.nb_change.specs.Changes.{Only, Touches};
ghost use Rattle.nb_delta.specs.Entries.{place_of};
ghost use Rattle.nb_delta.specs.Slots.{HasTable, SlotPut};
ghost use Rattle.nb_model.specs.Image.{image_state};
ghost use Rattle.nb_model.specs.Strokes.{page as page_stroke, noted};
ghost use Rattle.nb_model.specs.Owner.{delta_name, entry_for};
ghost use Rattle.nb_model.specs.Trail.{Trail};
ghost use Rattle.nb_base.specs.Firm.{is_kept_place, must_sync};
ghost use Rattle.nb_base.specs.Open.{Held, OfFiles, AreMerged};
ghost use Rattle.nb_base.specs.Seen.{IsSeen, IsWrite};
ghost use Rattle.nb_base.specs.Stays.{KeepsFile, EndsWithin};
ghost use Rattle.nb_base.specs.Takes.{TakesFirm};
ghost use Rattle.nb_base.specs.Touches.{WritesIn};

use nb_cases::syncs_of;
use nb_delta::Delta;
use nb_fields::is_scn_place;
use nb_fields::states::{MERGE, STALLED};
use nb_host::{Host, HostFault, Name, RunError};

/// Whether a write of page `number` is kept for good: writes are forced, or it makes the database of `count` pages longer, or it is
/// of page 0 or of an SCN inventory page.
pub fn is_synced(forced: bool, page_size: u32, count: u32, number: u32) -> bool
    requires size { IsTrue (is_page_size page_size) }
    requires most { number < most_pages }
    ensures { result ≡ (forced || is_kept_place page_size number || nat_le count number) }
{
    forced || number == 0 || is_scn_place(page_size, number) || count <= number
}

/// Writes a page that no entry names into the main file, in the normal or the merge state.
pub fn write_main<H: Host>(
    host: &mut H,
    name: &Name,
    number: u32,
    page: &[u8],
    synced: bool,
) -> Result<(), HostFault>
    requires size { IsTrue (is_page_size (length page.now)) }
    ensures takes { (t : Trail) → IsTrue H.tells → IsSeen (H.world host.old) name.now t → IsWrite t number page.now → image_state t.base.image ≢ stalled_state → entry_for number t.base.diverted ≡ None
        → synced ≡ must_sync t.base.image number
        → TakesFirm result (H.world host.old) (H.world host.new) name.now (IsSeen (H.world host.new) name.now) t (page_stroke number page.now ∷ []) }
    ensures touches { IsTrue H.tells → Touches (H.world host.old) (H.world host.new) (Only name.now) }
    ensures within { (most : ℕ) → IsTrue H.tells → number < most → KeepsFile (H.world host.old) (H.world host.new) name.now (EndsWithin (most * length page.now)) }
    ensures put { IsTrue H.tells → OnOk result ((H.world host.new).files ≡ with_file (H.world host.old).files name.now (with_page ((H.world host.old).files name.now) (number * length page.now) page.now)) }
    ensures log { IsSilent (H.world host.old) (H.world host.new) }
    ensures cause { CountsFault result (H.faults host.old) (H.faults host.new) }
{
    host.write_page(name, number, page)?;
    if synced { host.sync(name) } else { Ok(()) }
}

/// Writes a page that an entry names into the main file too, in the merge state. It changes no page of the database.
pub fn write_hidden<H: Host>(
    host: &mut H,
    name: &Name,
    number: u32,
    page: &[u8],
) -> Result<(), HostFault>
    requires size { IsTrue (is_page_size (length page.now)) }
    ensures takes { (t : Trail) (k : ℕ) → IsTrue H.tells → IsSeen (H.world host.old) name.now t → IsWrite t number page.now → image_state t.base.image ≡ merge_state → entry_for number t.base.diverted ≡ Some k
        → TakesFirm result (H.world host.old) (H.world host.new) name.now (IsSeen (H.world host.new) name.now) t [] }
    ensures touches { IsTrue H.tells → Touches (H.world host.old) (H.world host.new) (Only name.now) }
    ensures within { (most : ℕ) → IsTrue H.tells → number < most → KeepsFile (H.world host.old) (H.world host.new) name.now (EndsWithin (most * length page.now)) }
    ensures put { IsTrue H.tells → OnOk result ((H.world host.new).files ≡ with_file (H.world host.old).files name.now (with_page ((H.world host.old).files name.now) (number * length page.now) page.now)) }
    ensures log { IsSilent (H.world host.old) (H.world host.new) }
    ensures cause { CountsFault result (H.faults host.old) (H.faults host.new) }
{
    host.write_page(name, number, page)
}

/// Writes a page into the slot of its entry, in the stalled or the merge state.
pub fn write_slot<H: Host>(
    host: &mut H,
    delta: &mut Delta,
    slot: u32,
    page: &[u8],
    synced: bool,
) -> Result<(), HostFault>
    requires size { length page.now ≡ delta.old.page_size }
    ensures takes { (t : Trail) (name : List ℕ) (number k : ℕ) → IsTrue H.tells → IsSeen (H.world host.old) name t → IsWrite t number page.now → 0 < image_state t.base.image → entry_for number t.base.diverted ≡ Some k
        → delta.old.name ≡ delta_name name → slot ≡ slot_place delta.old.page_size k → synced ≡ must_sync t.base.image number
        → TakesFirm result (H.world host.old) (H.world host.new) name (IsSeen (H.world host.new) name) t (page_stroke number page.now ∷ []) }
    ensures put { IsTrue H.tells → (k : ℕ) → slot ≡ slot_place delta.old.page_size k
        → OnOk result (SlotPut delta.old.page_size k page.now ((H.world host.old).files delta.old.name) ((H.world host.new).files delta.old.name)) }
    ensures touches { IsTrue H.tells → (k : ℕ) → slot ≡ slot_place delta.old.page_size k → Touches (H.world host.old) (H.world host.new) (Only delta.old.name) }
    ensures same { delta.new ≡ delta.old }
    ensures log { IsSilent (H.world host.old) (H.world host.new) }
    ensures cause { CountsFault result (H.faults host.old) (H.faults host.new) }
{
    delta.rewrite(host, slot, page, synced)
}

/// Adds an entry for a page that has none, in the stalled state. Where it wants memory nothing has changed.
pub fn add_entry<H: Host>(
    host: &mut H,
    delta: &mut Delta,
    number: u32,
    page: &[u8],
    synced: bool,
) -> Result<(), RunError>
    requires size { length page.now ≡ delta.old.page_size }
    requires fresh { place_of delta.old.entries number ≡ None }
    requires below { number < most_pages }
    requires none_waits { delta.old.drafted ≡ 0 }
    ensures takes { (t : Trail) (name : List ℕ) → IsTrue H.tells → IsSeen (H.world host.old) name t → IsWrite t number page.now → image_state t.base.image ≡ stalled_state → t.base.diverted ≡ delta.old.entries
        → delta.old.name ≡ delta_name name → synced ≡ must_sync t.base.image number
        → TakesFirm result (H.world host.old) (H.world host.new) name (IsSeen (H.world host.new) name) t (page_stroke number page.now ∷ []) }
    ensures touches { IsTrue H.tells → HasTable delta.old.page_size ((H.world host.old).files delta.old.name) delta.old.entries → Touches (H.world host.old) (H.world host.new) (Only delta.old.name) }
    ensures known { OnOk result (delta.new ≡ record delta.old { entries = delta.old.entries ++ number ∷ [] }) }
    ensures on_device { result ≡ Err RunError.Device → delta.new ≡ record delta.old { entries = delta.old.entries ++ number ∷ [] } }
    ensures on_memory { result ≡ Err RunError.Memory → (delta.new ≡ delta.old) × (host.new ≡ host.old) }
    ensures log { IsSilent (H.world host.old) (H.world host.new) }
    ensures cause { CountsRun result (H.faults host.old) (H.faults host.new) }
{
    delta.add(host, number, page, synced)?;
    Ok(())
}

/// Writes a page into the slot of its entry and then into the main file, in the merge state.
pub fn write_both<H: Host>(
    host: &mut H,
    name: &Name,
    delta: &mut Delta,
    slot: u32,
    number: u32,
    page: &[u8],
    synced: bool,
) -> Result<(), HostFault>
    requires size { length page.now ≡ delta.old.page_size }
    requires page { IsTrue (is_page_size (length page.now)) }
    ensures takes { (t : Trail) (k : ℕ) → IsTrue H.tells → IsSeen (H.world host.old) name.now t → IsWrite t number page.now → image_state t.base.image ≡ merge_state → entry_for number t.base.diverted ≡ Some k
        → delta.old.name ≡ delta_name name.now → slot ≡ slot_place delta.old.page_size k → synced ≡ must_sync t.base.image number
        → TakesFirm result (H.world host.old) (H.world host.new) name.now (IsSeen (H.world host.new) name.now) t (page_stroke number page.now ∷ []) }
    // Entries that are equal in both files stay so.
    ensures merged { (t : Trail) (held : Held) (n : ℕ) (k : ℕ) → IsTrue H.tells → IsSeen (H.world host.old) held.name t → IsWrite t number page.now → image_state t.base.image ≡ merge_state → t.base.diverted ≡ held.entries
        → held.name ≡ name.now → held.page_size ≡ delta.old.page_size → delta.old.name ≡ delta_name name.now → entry_for number held.entries ≡ Some k → slot ≡ slot_place delta.old.page_size k → AreMerged (H.world host.old) held n → OnOk result (AreMerged (H.world host.new) held n) }
    ensures touches { IsTrue H.tells → (k : ℕ) → delta.old.name ≡ delta_name name.now → slot ≡ slot_place delta.old.page_size k → Touches (H.world host.old) (H.world host.new) (OfFiles name.now) }
    ensures within { (most k : ℕ) → IsTrue H.tells → delta.old.name ≡ delta_name name.now → slot ≡ slot_place delta.old.page_size k → number < most
        → KeepsFile (H.world host.old) (H.world host.new) name.now (EndsWithin (most * length page.now)) }
    ensures same { delta.new ≡ delta.old }
    ensures log { IsSilent (H.world host.old) (H.world host.new) }
    ensures cause { CountsFault result (H.faults host.old) (H.faults host.new) }
{
    write_slot(host, delta, slot, page, synced)?;
    write_hidden(host, name, number, page)
}

/// Writes a page in the stalled state: into the difference file, where it gets an entry unless it has one.
pub fn write_stalled<H: Host>(
    host: &mut H,
    delta: &mut Delta,
    number: u32,
    page: &[u8],
    synced: bool,
) -> Result<(), RunError>
    requires size { length page.now ≡ delta.old.page_size }
    requires below { number < most_pages }
    requires none_waits { delta.old.drafted ≡ 0 }
    ensures takes { (t : Trail) (name : List ℕ) → IsTrue H.tells → IsSeen (H.world host.old) name t → IsWrite t number page.now → image_state t.base.image ≡ stalled_state → t.base.diverted ≡ delta.old.entries
        → delta.old.name ≡ delta_name name → synced ≡ must_sync t.base.image number
        → TakesFirm result (H.world host.old) (H.world host.new) name (IsSeen (H.world host.new) name) t (page_stroke number page.now ∷ []) }
    ensures touches { IsTrue H.tells → HasTable delta.old.page_size ((H.world host.old).files delta.old.name) delta.old.entries → Touches (H.world host.old) (H.world host.new) (Only delta.old.name) }
    ensures known { OnOk result (delta.new ≡ record delta.old { entries = noted number delta.old.entries }) }
    ensures as_it_is { (delta.new ≡ delta.old) ⊎ (delta.new ≡ record delta.old { entries = delta.old.entries ++ number ∷ [] }) }
    ensures on_memory { result ≡ Err RunError.Memory → (delta.new ≡ delta.old) × (host.new ≡ host.old) }
    ensures log { IsSilent (H.world host.old) (H.world host.new) }
    ensures cause { CountsRun result (H.faults host.old) (H.faults host.new) }
{
    match delta.slot_of(host, number)? {
        Some(slot) => {
            let syncs = syncs_of(STALLED, true, synced);
            write_slot(host, delta, slot, page, syncs.slot)?;
            Ok(())
        }
        None => {
            let syncs = syncs_of(STALLED, false, synced);
            add_entry(host, delta, number, page, syncs.table)?;
            Ok(())
        }
    }
}

/// Writes a page in the normal or the merge state: into the main file, and into the slot of its entry before, where it has one. Entries
/// are in the merge state alone.
pub fn write_plain<H: Host>(
    host: &mut H,
    name: &Name,
    delta: &mut Delta,
    state: u16,
    number: u32,
    page: &[u8],
    synced: bool,
) -> Result<(), HostFault>
    requires size { length page.now ≡ delta.old.page_size }
    requires page { IsTrue (is_page_size (length page.now)) }
    requires opened { state ≤ 2 }
    requires plain { state ≢ stalled_state }
    ensures takes { (t : Trail) → IsTrue H.tells → IsSeen (H.world host.old) name.now t → IsWrite t number page.now → image_state t.base.image ≢ stalled_state → t.base.diverted ≡ delta.old.entries
        → delta.old.name ≡ delta_name name.now → synced ≡ must_sync t.base.image number
        → TakesFirm result (H.world host.old) (H.world host.new) name.now (IsSeen (H.world host.new) name.now) t (page_stroke number page.now ∷ []) }
    // Entries that are equal in both files stay so.
    ensures merged { (t : Trail) (held : Held) (n : ℕ) → IsTrue H.tells → IsSeen (H.world host.old) held.name t → IsWrite t number page.now → image_state t.base.image ≡ merge_state → t.base.diverted ≡ held.entries
        → held.name ≡ name.now → held.page_size ≡ delta.old.page_size → delta.old.name ≡ delta_name name.now → held.entries ≡ delta.old.entries → AreMerged (H.world host.old) held n → OnOk result (AreMerged (H.world host.new) held n) }
    ensures touches { IsTrue H.tells → (state ≡ normal_state → delta.old.entries ≡ []) → delta.old.name ≡ delta_name name.now → WritesIn (H.world host.old) (H.world host.new) state name.now }
    ensures within { (most : ℕ) → IsTrue H.tells → delta.old.name ≡ delta_name name.now → number < most → KeepsFile (H.world host.old) (H.world host.new) name.now (EndsWithin (most * length page.now)) }
    ensures same { delta.new ≡ delta.old }
    ensures log { IsSilent (H.world host.old) (H.world host.new) }
    ensures cause { CountsFault result (H.faults host.old) (H.faults host.new) }
{
    match delta.slot_of(host, number)? {
        Some(slot) => {
            let syncs = syncs_of(MERGE, true, synced);
            write_both(host, name, delta, slot, number, page, syncs.slot)
        }
        None => {
            let syncs = syncs_of(state, false, synced);
            write_main(host, name, number, page, syncs.main)
        }
    }
}
