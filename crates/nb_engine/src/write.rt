// Raw pages are written and read.
ghost use Rattle.std.specs.Prelude.{◌≡◌, ◌≢◌, ◌≤◌, [], ◌∷◌, ◌+◌, IsTrue, IfErr, OnOk, length};
ghost use Rattle.nb_fields.specs.States.{stalled_state};
ghost use Rattle.nb_host.specs.declared.faults.Fault.TheVariants.{Memory};
ghost use Rattle.nb_host.specs.Causes.{CountsDevice, FaultCount};
ghost use Rattle.nb_model.specs.Causes.{Tested, first_cause, read_only, too_long};
ghost use Rattle.nb_model.specs.Image.{Image, is_read_only};
ghost use Rattle.nb_model.specs.Trail.{Trail};
ghost use Rattle.nb_model.specs.Outcomes.{Seen};
ghost use Rattle.nb_model.specs.Pages.{write_turn, read_turn};
ghost use Rattle.nb_state.specs.Open.{IsOpen};
ghost use Rattle.nb_state.specs.Looks.{Looks};
ghost use Rattle.nb_state.specs.Does.{Goes, Does};
ghost use Rattle.nb_alloc.specs.Tries.{StopsShort, WhereMemory};
ghost use Rattle.nb_engine.specs.Replies.{done, valued};

use crate::Engine;
use arrayvec::ArrayVec;
use nb_alloc::{raise_entry, read_raw, write_raw};
use nb_fields::layouts::raw::MOST_TEXT;
use nb_host::{Fault, Host, Refusal};
use nb_page::raw_text;

/// Tests what `write` tests of a taken raw page: that the database may be changed, and that the text fits.
fn check_write(closed: bool, text: &[u8]) -> Result<(), Fault>
    ensures test { (image : Image) → closed ≡ is_read_only image → Tested result (first_cause (read_only image ∷ too_long text.now ∷ [])) }
    ensures short { OnOk result (length text.now ≤ 200) }
    ensures cause { (faults : FaultCount) → CountsDevice result faults faults }
    ensures takes_none { IfErr result (λ fault. fault ≢ Memory) }
{
    if closed {
        return Err(Fault::Refused(Refusal::Access { found: 1 }));
    }
    if text.len() > MOST_TEXT {
        return Err(Fault::Refused(Refusal::TextLong {
            len: text.len() as u64,
        }));
    }
    Ok(())
}

impl Engine {
    /// Gives page `number`, a taken raw page, a text of at most 200 bytes. Its SCN entry is raised before, where that is below the
    /// current SCN. Where writes are forced both are kept for good. It takes three reads at most, and wants memory in the stalled state
    /// alone, and has not written the page then.
    ///
    /// The refusals are `PageRange`, `NotDatabase` of its inventory page, `NotAllocated`, `SystemPage`, `Access`, `TextLong` and
    /// `NotDatabase` of its SCN page, in this order. A refused write changes nothing.
    pub fn page_write<H: Host>(
        &mut self,
        host: &mut H,
        number: u32,
        text: &[u8],
    ) -> Result<(), Fault>
        ensures turn { (s : Seen) (t : Trail) → IsTrue H.tells → t.base ≡ s.base → IsOpen (H.world host.old) self.old t
            → Does done result (H.world host.old) (H.world host.new) self.old self.new t (write_turn s number text.now) }
        ensures goes { Goes self.old self.new }
        ensures once { IsTrue H.tells → (H.world host.new).reads ≤ (H.world host.old).reads + 3 }
        ensures cause { CountsDevice result (H.faults host.old) (H.faults host.new) }
        ensures takes_none { self.old.files.state ≢ stalled_state → IfErr result (λ fault. fault ≢ Memory) }
        ensures on_memory { (s : Seen) (t : Trail) → IsTrue H.tells → t.base ≡ s.base → IsOpen (H.world host.old) self.old t
            → WhereMemory result (StopsShort (H.world host.old) (H.world host.new) self.old self.new t (write_turn s number text.now).strokes) }
    {
        read_raw(&mut self.store, host, number, &mut self.page, &mut self.map)?;
        // Page 0 is the header, whatever the host gave for it.
        if number == 0 {
            return Err(Fault::Refused(Refusal::SystemPage { page: number }));
        }
        check_write(self.store.is_read_only(), text)?;
        raise_entry(&mut self.store, host, number, &mut self.scn_page)?;
        write_raw(&mut self.store, host, number, text, &mut self.page)?;
        Ok(())
    }

    /// The text of page `number`, a taken raw page. It takes three reads at most, and no memory.
    ///
    /// The refusals are `PageRange`, `NotDatabase` of its inventory page, `NotAllocated`, `SystemPage`, and `NotDatabase` of the page
    /// where it says that its text is longer than 200 bytes, in this order.
    pub fn page_read<H: Host>(
        &mut self,
        host: &mut H,
        number: u32,
    ) -> Result<ArrayVec<u8, 200>, Fault>
        ensures turn { (s : Seen) (t : Trail) → IsTrue H.tells → t.base ≡ s.base → IsOpen (H.world host.old) self.old t
            → Does valued result (H.world host.old) (H.world host.new) self.old self.new t (read_turn s number) }
        ensures looks { Looks H.tells (H.world host.old) (H.world host.new) self.old self.new }
        ensures goes { Goes self.old self.new }
        ensures once { IsTrue H.tells → (H.world host.new).reads ≤ (H.world host.old).reads + 3 }
        ensures cause { CountsDevice result (H.faults host.old) (H.faults host.new) }
        ensures takes_none { IfErr result (λ fault. fault ≢ Memory) }
    {
        read_raw(&mut self.store, host, number, &mut self.page, &mut self.map)?;
        let Some(text) = raw_text(&self.page) else {
            return Err(Fault::Refused(Refusal::NotDatabase { page: number }));
        };
        let mut copy = ArrayVec::new();
        // It fits: such a text has at most 200 bytes.
        let _ = copy.try_extend_from_slice(text);
        Ok(copy)
    }
}
