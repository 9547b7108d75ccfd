// What page 0 says after its head.
ghost use Rattle.std.specs.Prelude.{◌≡◌, ◌<◌, ◌≤◌, length, not, ◌==◌};
ghost use Rattle.nb_fields.specs.Bytes.{number_in};
ghost use Rattle.nb_fields.specs.Header.{scn_of, guid_of};

use nb_fields::layouts::header;

#[derive(Clone, Copy)]
pub struct Front {
    /// The current SCN.
    pub scn: u32,
    /// The GUID of the last backup.
    pub guid: [u8; 16],
    /// Whether no statement may change a page.
    pub read_only: bool,
}

/// The fields of page 0 that a running database holds in memory.
pub fn front_of(page: &[u8]) -> Front
    requires { 80 ≤ length page.now }
    ensures scn { result.scn ≡ scn_of page.now }
    ensures four { result.scn < 4294967296 }
    ensures guid { result.guid ≡ guid_of page.now }
    ensures read_only { result.read_only ≡ not (number_in 65 1 page.now == 0) }
{
    Front {
        scn: header::Scn::get(page) as u32,
        guid: header::Guid::get(page),
        read_only: header::Access::get(page) != 0,
    }
}
