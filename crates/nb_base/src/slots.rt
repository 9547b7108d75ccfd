// Pages that waited go into their slots in the stalled state, and after them the drafted entries into the table.
ghost use Rattle.std.specs.Prelude.{◌≡◌, ◌≢◌, ◌<◌, ℕ, Bool, false, length, IsTrue, IfErr, OnOk, OnErr};
ghost use Rattle.nb_fields.specs.Places.{most_pages};
ghost use Rattle.nb_fields.specs.States.{stalled_state};
ghost use Rattle.nb_host.specs.Causes.{CountsFault};
ghost use Rattle.nb_host.specs.declared.faults.RunError.TheVariants.{Memory};
ghost use Rattle.nb_change.specs.Changes.{Only, Changes};
ghost use Rattle.nb_change.specs.Gave.{GaveNothing};
ghost use Rattle.nb_model.specs.Owner.{delta_name};
ghost use Rattle.nb_model.specs.Trail.{Trail, StandsIn};
ghost use Rattle.nb_base.specs.Open.{IsOpen};
ghost use Rattle.nb_base.specs.Going.{GoesIn, MaySlot, Drafts};

use crate::TwoFiles;
use nb_host::{Host, HostFault, RunError};

impl TwoFiles {
    /// How many of the entries are drafted.
    pub fn drafted(&self) -> u32
        ensures value { result ≡ self.now.drafted }
        ensures stalled { self.now.state ≢ stalled_state → result ≡ 0 }
    {
        self.delta.drafted()
    }

    /// Gives page `number` an entry in the stalled state, unless it has one. The entry is drafted, and no call is made. Where it wants
    /// memory nothing has changed.
    pub fn draft<H: Host>(&mut self, host: &mut H, number: u32) -> Result<(), RunError>
        requires stalled { self.old.state ≡ stalled_state }
        requires below { number < most_pages }
        ensures drafts { OnOk result (Drafts number self.old self.new) }
        ensures no_call { host.new ≡ host.old }
        ensures only_memory { IfErr result (λ error. (error ≡ Memory) × (self.new ≡ self.old)) }
    {
        match self.delta.slot_of(host, number)? {
            Some(_) => Ok(()),
            None => {
                self.delta.draft(number)?;
                Ok(())
            }
        }
    }

    /// Writes page `number`, which has an entry, into its slot, in the stalled state. It isn't kept for good before the entries are.
    pub fn put_slot<H: Host>(
        &mut self,
        host: &mut H,
        number: u32,
        page: &[u8],
    ) -> Result<(), HostFault>
        requires size { length page.now ≡ self.old.page_size }
        ensures left { (f t : Trail) (waits : ℕ → Bool) → IsTrue H.tells → GoesIn (H.world host.old) self.old f t waits → MaySlot t number page.now
            → Changes (H.world host.old) (H.world host.new) (Only (delta_name self.old.name)) (StandsIn self.old.name t) }
        ensures put { (f t : Trail) (waits later : ℕ → Bool) → IsTrue H.tells → GoesIn (H.world host.old) self.old f t waits → MaySlot t number page.now → ((q : ℕ) → q ≢ number → later q ≡ waits q)
            → OnOk result (GoesIn (H.world host.new) self.new f t later) }
        ensures same { self.new ≡ self.old }
        ensures gave { GaveNothing (H.world host.old) (H.world host.new) }
        ensures reads { (H.world host.new).reads ≡ (H.world host.old).reads }
        ensures cause { CountsFault result (H.faults host.old) (H.faults host.new) }
    {
        match self.delta.slot_of(host, number)? {
            Some(slot) => self.delta.rewrite(host, slot, page, false),
            None => Ok(()),
        }
    }

    /// Keeps what stands in the slots for good, and brings the drafted entries into the table, in the stalled state. No page waits then.
    pub fn enter<H: Host>(&mut self, host: &mut H) -> Result<(), HostFault>
        requires stalled { self.old.state ≡ stalled_state }
        ensures left { (f t : Trail) (waits : ℕ → Bool) → IsTrue H.tells → GoesIn (H.world host.old) self.old f t waits → ((p : ℕ) → waits p ≡ false)
            → Changes (H.world host.old) (H.world host.new) (Only (delta_name self.old.name)) (StandsIn self.old.name t) }
        ensures done { (f t : Trail) (waits : ℕ → Bool) → IsTrue H.tells → GoesIn (H.world host.old) self.old f t waits → ((p : ℕ) → waits p ≡ false)
            → OnOk result (IsOpen (H.world host.new) self.new t) }
        ensures known { OnOk result (self.new ≡ record self.old { drafted = 0 }) }
        ensures not_known { OnErr result (self.new ≡ self.old) }
        ensures gave { GaveNothing (H.world host.old) (H.world host.new) }
        ensures reads { (H.world host.new).reads ≡ (H.world host.old).reads }
        ensures cause { CountsFault result (H.faults host.old) (H.faults host.new) }
    {
        if self.delta.drafted() == 0 {
            host.sync(&self.name.delta())?;
            Ok(())
        } else {
            self.delta.write_entries(host)?;
            Ok(())
        }
    }
}
