ghost use Rattle.std.specs.Prelude.{◌≡◌};

use nb_level::LevelHead;

/// What the next file of a chain goes on from: the file before it.
#[derive(Clone, Copy, Debug, PartialEq, Eq)]
pub struct Tip {
    /// In bytes.
    pub page_size: u32,
    /// The GUID of its backup.
    pub guid: [u8; 16],
    /// The SCN of its backup.
    pub scn: u32,
}

impl Tip {
    /// What goes on from the level file of that head goes on from this.
    pub fn of(head: &LevelHead) -> Tip
        ensures size { result.page_size ≡ head.now.page_size }
        ensures guid { result.guid ≡ head.now.guid }
        ensures scn { result.scn ≡ head.now.scn }
    {
        let LevelHead {
            page_size,
            guid,
            scn,
            ..
        } = *head;
        Tip {
            page_size,
            guid,
            scn,
        }
    }
}
