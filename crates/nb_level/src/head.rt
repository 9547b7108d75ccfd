ghost use Rattle.std.specs.Prelude.{◌≡◌, []};
ghost use Rattle.nb_model.specs.Levels.{head_then, head_in};
ghost use Rattle.nb_level.specs.Heads.{head_of};

use nb_fields::fields;
use nb_fields::layouts::level;

/// The head of a level file of level 1 to 9.
#[derive(Clone, Copy, Debug, PartialEq, Eq)]
pub struct LevelHead {
    /// 1 to 9.
    pub level: u16,
    /// The GUID of the backup.
    pub guid: [u8; 16],
    /// The GUID of the backup that it goes on from.
    pub previous: [u8; 16],
    /// In bytes.
    pub page_size: u32,
    /// The SCN of the backup.
    pub scn: u32,
    /// The SCN of the backup that it goes on from: pages that are stamped above it are in the file.
    pub previous_scn: u32,
}

/// The bytes of a head in that version.
pub(crate) fn head_bytes(head: &LevelHead, version: u16) -> [u8; level::LENGTH]
    ensures { result ≡ head_then version (head_of head.now) [] }
{
    let LevelHead {
        level,
        guid,
        previous,
        page_size,
        scn,
        previous_scn,
    } = *head;
    let mut bytes = [0; level::LENGTH];
    level::Signature::put(&mut bytes, level::SIGNATURE);
    level::Version::put(&mut bytes, u64::from(version));
    level::Level::put(&mut bytes, u64::from(level));
    level::Guid::put(&mut bytes, &guid);
    level::Previous::put(&mut bytes, &previous);
    level::PageSize::put(&mut bytes, u64::from(page_size));
    level::Scn::put(&mut bytes, u64::from(scn));
    level::PreviousScn::put(&mut bytes, u64::from(previous_scn));
    bytes
}

/// The fields of a head, whatever they are.
#[tactic(auto, unfolding(nb_model::specs::Levels::head_in))]
pub(crate) fn head_in(bytes: &[u8; level::LENGTH]) -> LevelHead
    ensures { head_of result ≡ head_in bytes.now }
{
    fields!(bytes; level: level::Level, page_size: level::PageSize, scn: level::Scn);
    fields!(bytes; guid: level::Guid, previous: level::Previous, previous_scn: level::PreviousScn);
    LevelHead {
        level: level as u16,
        guid,
        previous,
        page_size: page_size as u32,
        scn: scn as u32,
        previous_scn: previous_scn as u32,
    }
}
