// The backup history: what it has, and what is added.
ghost use Rattle.std.specs.Prelude.{◌≡◌, ◌≢◌, ◌+◌, ◌<◌, ◌≤◌, IsTrue, IfErr, IfOk, OnOk, length, nat_eq};
ghost use Rattle.nb_fields.specs.States.{stalled_state};
ghost use Rattle.nb_host.specs.Names.{same_name};
ghost use Rattle.nb_host.specs.declared.faults.Fault.TheVariants.{Memory};
ghost use Rattle.nb_host.specs.Causes.{CountsDevice};
ghost use Rattle.nb_model.specs.Causes.{Tested, broken_at};
ghost use Rattle.nb_model.specs.Backups.{room_in};
ghost use Rattle.nb_model.specs.Chains.{History, pages_of, found_pages, backup_spot, level_in, guid_in, put_slot, backup_slot};
ghost use Rattle.nb_model.specs.Forms.{drafted};
ghost use Rattle.nb_model.specs.Trail.{Trail};
ghost use Rattle.nb_state.specs.Open.{IsOpen};
ghost use Rattle.nb_state.specs.Looks.{Looks};
ghost use Rattle.nb_state.specs.Does.{Goes};
ghost use Rattle.nb_engine.specs.History.{row_at, IsPlaced};
ghost use Rattle.nb_engine.specs.Room.{room_cause, write_cause, IsRoomIn};
ghost use Rattle.nb_alloc.specs.Tries.{Tries};

use crate::Engine;
use crate::room::{add_row, check_room, grow};
use crate::rows::{HistoryRow, Wanted};
use crate::walk::{Room, walk};
use nb_host::{Fault, Host, Refusal};

impl Engine {
    /// The latest backup of that level in the history, and none exactly where it has none. Each page of the history is read once, and no memory is
    /// wanted.
    ///
    /// The refusal is `NotDatabase` of the first page of the history that breaks the form.
    pub fn history_last<H: Host>(
        &mut self,
        host: &mut H,
        level: u8,
    ) -> Result<Option<HistoryRow>, Fault>
        ensures test { (t : Trail) → IsTrue H.tells → IsOpen (H.world host.old) self.old t → Tested result (broken_at (pages_of History t.base.image)) }
        ensures row { (t : Trail) → IsTrue H.tells → IsOpen (H.world host.old) self.old t → IfOk result (λ row. row ≡ row_at (backup_spot (λ slot. nat_eq (level_in slot) level) t.base.image)) }
        ensures looks { Looks H.tells (H.world host.old) (H.world host.new) self.old self.new }
        ensures once { (t : Trail) → IsTrue H.tells → IsOpen (H.world host.old) self.old t → OnOk result ((H.world host.new).reads ≤ (H.world host.old).reads + length (found_pages History t.base.image)) }
        ensures most { IsTrue H.tells → (H.world host.new).reads ≤ (H.world host.old).reads + self.old.files.count }
        ensures cause { CountsDevice result (H.faults host.old) (H.faults host.new) }
        ensures takes_none { IfErr result (λ fault. fault ≢ Memory) }
    {
        let (walked, _) = walk(&mut self.store, host, &mut self.page, &Wanted::Level(level))?;
        Ok(walked.row)
    }

    /// The latest backup of that GUID in the history, and none exactly where it has none. Each page of the history is read once, and no memory is
    /// wanted.
    ///
    /// The refusal is `NotDatabase` of the first page of the history that breaks the form.
    pub fn history_find<H: Host>(
        &mut self,
        host: &mut H,
        guid: &[u8; 16],
    ) -> Result<Option<HistoryRow>, Fault>
        ensures test { (t : Trail) → IsTrue H.tells → IsOpen (H.world host.old) self.old t → Tested result (broken_at (pages_of History t.base.image)) }
        ensures row { (t : Trail) → IsTrue H.tells → IsOpen (H.world host.old) self.old t → IfOk result (λ row. row ≡ row_at (backup_spot (λ slot. same_name (guid_in slot) guid.now) t.base.image)) }
        ensures looks { Looks H.tells (H.world host.old) (H.world host.new) self.old self.new }
        ensures once { (t : Trail) → IsTrue H.tells → IsOpen (H.world host.old) self.old t → OnOk result ((H.world host.new).reads ≤ (H.world host.old).reads + length (found_pages History t.base.image)) }
        ensures most { IsTrue H.tells → (H.world host.new).reads ≤ (H.world host.old).reads + self.old.files.count }
        ensures cause { CountsDevice result (H.faults host.old) (H.faults host.new) }
        ensures takes_none { IfErr result (λ fault. fault ≢ Memory) }
    {
        let (walked, _) = walk(&mut self.store, host, &mut self.page, &Wanted::Guid(*guid))?;
        Ok(walked.row)
    }

    /// Makes sure that the history has a free slot, and answers the first. Where there is none a new page is made, and the last page of the
    /// history is linked to it after that. It wants memory in the stalled state alone, and has not linked it then.
    ///
    /// The refusals are `NotDatabase` of the first page of the history that breaks the form, `NotDatabase` of the lowest page that isn't of its
    /// kind, `Full` and `ScnExhausted`, in this order. For a free slot these pages are the inventory page and the SCN page of its page, and that
    /// page itself, where it is free; for a new page those that it needs, the SCN page of the last page, and that page itself, where the search
    /// for the new page makes a system page of it. All is tested before the first write: a refused call changes nothing.
    pub fn history_room<H: Host>(&mut self, host: &mut H) -> Result<Room, Fault>
        ensures makes { (t : Trail) → IsTrue H.tells → IsOpen (H.world host.old) self.old t
            → Tries result (H.world host.old) (H.world host.new) self.old self.new t (room_cause t.base.image) (room_in t.base.image).draft.strokes }
        ensures room { (t : Trail) → IsTrue H.tells → IsOpen (H.world host.old) self.old t → IfOk result (IsRoomIn t.base.image) }
        ensures below { (t : Trail) → IsTrue H.tells → IsOpen (H.world host.old) self.old t → IfOk result (λ room. room.page < length (room_in t.base.image).draft.image) }
        ensures placed { IfOk result (IsPlaced self.old.files.page_size) }
        ensures goes { Goes self.old self.new }
        ensures cause { CountsDevice result (H.faults host.old) (H.faults host.new) }
        ensures takes_none { self.old.files.state ≢ stalled_state → IfErr result (λ fault. fault ≢ Memory) }
    {
        // Contracts ask for its range, which is known of what was read.
        let _scn = self.store.scn();
        let (walked, last) = walk(&mut self.store, host, &mut self.page, &Wanted::Nothing)?;
        match walked.room {
            Some(room) => {
                check_room(
                    &mut self.store,
                    host,
                    room.page,
                    &mut self.map,
                    &mut self.scn_page,
                )?;
                Ok(room)
            }
            None => {
                let number = grow(
                    &mut self.store,
                    host,
                    last,
                    &mut self.page,
                    &mut self.map,
                    &mut self.scn_page,
                )?;
                Ok(Room {
                    page: number,
                    slot: 0,
                })
            }
        }
    }

    /// Writes a row into a slot that was kept for it. The SCN entry of its page is raised before, where that is below the current SCN. It wants
    /// memory in the stalled state alone, and has raised the entry at most then.
    ///
    /// The refusals are `NotDatabase` of that page, where it is past the end, and of its SCN page, in this order. A refused call changes
    /// nothing.
    pub fn history_add<H: Host>(
        &mut self,
        host: &mut H,
        room: &Room,
        row: &HistoryRow,
    ) -> Result<(), Fault>
        requires placed { IsPlaced self.old.files.page_size room.now }
        ensures tries { (t : Trail) → IsTrue H.tells → IsOpen (H.world host.old) self.old t
            → Tries result (H.world host.old) (H.world host.new) self.old self.new t (write_cause t.base.image room.now.page)
            (put_slot room.now.page room.now.slot (backup_slot row.now.level row.now.scn row.now.time row.now.guid row.now.name) (drafted t.base.image)).strokes }
        ensures goes { Goes self.old self.new }
        ensures cause { CountsDevice result (H.faults host.old) (H.faults host.new) }
        ensures takes_none { self.old.files.state ≢ stalled_state → IfErr result (λ fault. fault ≢ Memory) }
    {
        let count = self.store.count();
        if room.page >= count {
            return Err(Fault::Refused(Refusal::NotDatabase { page: room.page }));
        }
        add_row(
            &mut self.store,
            host,
            room,
            row,
            &mut self.page,
            &mut self.scn_page,
        )
    }
}
