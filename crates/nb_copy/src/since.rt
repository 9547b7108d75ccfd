// The backup that a new one goes on from.
ghost use Rattle.std.specs.Prelude.{◌≡◌, ◌≤◌, length, IsTrue, IfOk};
ghost use Rattle.nb_fields.specs.Places.{is_page_size};
ghost use Rattle.nb_host.specs.Causes.{CountsDevice};
ghost use Rattle.nb_model.specs.Trail.{Trail};
ghost use Rattle.nb_state.specs.Open.{IsOpen};
ghost use Rattle.nb_state.specs.Looks.{Looks};
ghost use Rattle.nb_model.specs.Causes.{Tested};
ghost use Rattle.nb_copy.specs.Starting.{ask_by, ask_in, earlier_cause, IsNineAtMost, IsItsLevel};
ghost use Rattle.nb_copy.specs.declared.since.Since.TheVariants.{Level as LevelBelow, Guid as OfGuid};

use nb_engine::Engine;
use nb_host::{Fault, Host, Refusal};
use nb_level::LevelHead;

/// From which backup a new one goes on.
#[derive(Clone, Copy)]
pub(crate) enum Since {
    /// A backup of that level goes on from the latest one of the level below, and one of level 0 from none.
    Level(u8),
    /// It goes on from the latest one of that GUID. Its level is one more than that one's, and 9 at most.
    Guid([u8; 16]),
}

/// The head of a backup of that level after the one of that GUID and SCN, without a GUID and an SCN of its own.
fn bare_head(engine: &Engine, level: u8, previous: [u8; 16], previous_scn: u32) -> LevelHead
    ensures asks { ask_by result ≡ record { level = level; previous = previous; previous_scn = previous_scn } }
    ensures size { result.page_size ≡ engine.now.files.page_size }
    ensures sized { IsTrue (is_page_size result.page_size) }
{
    LevelHead {
        level: u16::from(level),
        guid: [0; 16],
        previous,
        page_size: engine.page_size(),
        scn: 0,
        previous_scn,
    }
}

/// The head of a backup of that level. The refusals are `NotDatabase` of the history and `NoHistory`, in this order; level 0 has none.
fn find_level<H: Host>(host: &mut H, engine: &mut Engine, level: u8) -> Result<LevelHead, Fault>
    ensures test { (t : Trail) → IsTrue H.tells → IsOpen (H.world host.old) engine.old t → Tested result (earlier_cause (LevelBelow level) t.base.image) }
    ensures head { (t : Trail) → IsTrue H.tells → IsOpen (H.world host.old) engine.old t → IfOk result (λ head. ask_by head ≡ ask_in (LevelBelow level) t.base.image) }
    ensures level { IfOk result (λ head. head.level ≡ level) }
    ensures previous { IfOk result (λ head. length head.previous ≡ 16) }
    ensures size { IfOk result (λ head. head.page_size ≡ engine.old.files.page_size) }
    ensures sized { IfOk result (λ head. IsTrue (is_page_size head.page_size)) }
    ensures looks { Looks H.tells (H.world host.old) (H.world host.new) engine.old engine.new }
    ensures cause { CountsDevice result (H.faults host.old) (H.faults host.new) }
{
    if level == 0 {
        return Ok(bare_head(engine, level, [0; 16], 0));
    }
    let below = level - 1;
    match engine.history_last(host, below)? {
        Some(row) => Ok(bare_head(engine, level, row.guid, row.scn)),
        None => Err(Fault::Refused(Refusal::NoHistory {
            level: u32::from(below),
        })),
    }
}

/// The head of a backup since that GUID. The refusals are `NotDatabase` of the history and `NoGuid`, in this order.
fn find_guid<H: Host>(
    host: &mut H,
    engine: &mut Engine,
    guid: &[u8; 16],
) -> Result<LevelHead, Fault>
    ensures test { (t : Trail) → IsTrue H.tells → IsOpen (H.world host.old) engine.old t → Tested result (earlier_cause (OfGuid guid.now) t.base.image) }
    ensures head { (t : Trail) → IsTrue H.tells → IsOpen (H.world host.old) engine.old t → IfOk result (λ head. ask_by head ≡ ask_in (OfGuid guid.now) t.base.image) }
    ensures level { IfOk result (λ head. head.level ≤ 9) }
    ensures previous { IfOk result (λ head. length head.previous ≡ 16) }
    ensures size { IfOk result (λ head. head.page_size ≡ engine.old.files.page_size) }
    ensures sized { IfOk result (λ head. IsTrue (is_page_size head.page_size)) }
    ensures looks { Looks H.tells (H.world host.old) (H.world host.new) engine.old engine.new }
    ensures cause { CountsDevice result (H.faults host.old) (H.faults host.new) }
{
    match engine.history_find(host, guid)? {
        Some(row) => {
            let level = row.level.min(8) + 1;
            Ok(bare_head(engine, level, row.guid, row.scn))
        }
        None => Err(Fault::Refused(Refusal::NoGuid { guid: *guid })),
    }
}

impl Since {
    /// The head of the new backup, without its GUID and SCN. The refusals are `NotDatabase` of the first page of the history that breaks
    /// the form, and `NoHistory` or `NoGuid`, in this order; a backup of level 0 has none.
    pub(crate) fn find<H: Host>(
        &self,
        host: &mut H,
        engine: &mut Engine,
    ) -> Result<LevelHead, Fault>
        requires { IsNineAtMost self.now }
        ensures test { (t : Trail) → IsTrue H.tells → IsOpen (H.world host.old) engine.old t → Tested result (earlier_cause self.now t.base.image) }
        ensures head { (t : Trail) → IsTrue H.tells → IsOpen (H.world host.old) engine.old t → IfOk result (λ head. ask_by head ≡ ask_in self.now t.base.image) }
        ensures its_level { IfOk result (λ head. IsItsLevel self.now head.level) }
        ensures level { IfOk result (λ head. head.level ≤ 9) }
        ensures previous { IfOk result (λ head. length head.previous ≡ 16) }
        ensures size { IfOk result (λ head. head.page_size ≡ engine.old.files.page_size) }
        ensures sized { IfOk result (λ head. IsTrue (is_page_size head.page_size)) }
        ensures looks { Looks H.tells (H.world host.old) (H.world host.new) engine.old engine.new }
        ensures cause { CountsDevice result (H.faults host.old) (H.faults host.new) }
    {
        match self {
            Since::Level(level) => find_level(host, engine, *level),
            Since::Guid(guid) => find_guid(host, engine, guid),
        }
    }
}
