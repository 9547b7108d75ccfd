ghost use Rattle.std.specs.Prelude.{◌≡◌, ◌≤◌, length, is_some, IfSome, IsTrue};
ghost use Rattle.nb_fields.specs.Bytes.{with_part};
ghost use Rattle.nb_fields.specs.Places.{is_page_size};
ghost use Rattle.nb_fields.specs.Page.{kind_of, number_of_page};
ghost use Rattle.nb_fields.specs.Header.{is_header, is_marked, is_sound};
ghost use Rattle.nb_fields.specs.Kinds.{header_kind};
ghost use Rattle.nb_page.specs.Header.{header_in, block_of, HasForm};

use nb_fields::layouts::{head, header};
use nb_fields::states::{APPLYING, STALLED};
use nb_fields::{fields, is_page_size};

/// What the control block of a database holds.
#[derive(Clone, Copy, Debug, PartialEq, Eq)]
pub struct Header {
    /// In bytes.
    pub page_size: u32,
    /// The backup state: 0 normal, 1 stalled, 2 merge, 3 applying.
    pub state: u16,
    /// The current SCN.
    pub scn: u32,
    /// The GUID of the last backup.
    pub guid: [u8; 16],
    /// The GUID of the level file that is being merged in.
    pub pending: [u8; 16],
}

/// Whether the first bytes of a file say that they are those of a database of this version.
#[tactic(auto, unfolding(nb_fields::specs::Header::is_marked))]
fn is_marked(first: &[u8]) -> bool
    requires { 64 ≤ length first.now }
    ensures { result ≡ is_marked first.now }
{
    fields!(first; kind: head::Kind, number: head::Number);
    fields!(first; signature: header::Signature, version: header::Version);
    kind == 1 && number == 0 && signature == header::SIGNATURE && version == header::VERSION
}

/// The fields of the control block, whatever they are.
#[tactic(auto, unfolding(crate::specs::Header::header_in))]
fn header_in(first: &[u8]) -> Header
    requires { 64 ≤ length first.now }
    ensures { result ≡ header_in first.now }
{
    fields!(first; state: header::State, page_size: header::PageSize, scn: header::Scn);
    fields!(first; guid: header::Guid, pending: header::Pending);
    Header {
        page_size: page_size as u32,
        state: state as u16,
        scn: scn as u32,
        guid,
        pending,
    }
}

impl Header {
    /// Whether the fields are those of a database: a state, a page size, and an SCN that leaves room for the backup
    /// that runs.
    fn is_sound(&self) -> bool
        ensures { result ≡ is_sound self.now.state self.now.page_size self.now.scn }
    {
        self.state <= APPLYING
            && is_page_size(u64::from(self.page_size))
            && self.scn >= 1
            && (self.state != STALLED || self.scn < u32::MAX)
    }
}

/// The header that the first 64 bytes of a file hold, and none exactly where they haven't its form.
///
/// Bytes from 64 on are not looked at.
pub fn read_header(first: &[u8]) -> Option<Header>
    requires { 64 ≤ length first.now }
    ensures exact { is_some result ≡ is_header first.now }
    ensures value { IfSome result (λ header. header ≡ header_in first.now) }
    ensures form { IfSome result HasForm }
{
    let header = header_in(first);
    if is_marked(first) && header.is_sound() {
        Some(header)
    } else {
        None
    }
}

/// Writes the control block of page 0, its bytes 16 to 63, and no other byte.
pub fn write_header(page: &mut [u8], header: &Header)
    requires { IsTrue (is_page_size (length page.old)) }
    ensures read_back { header_in page.new ≡ header.now }
    ensures form { kind_of page.old ≡ header_kind → number_of_page page.old ≡ 0 → HasForm header.now
        → IsTrue (is_header page.new) }
    ensures written { page.new ≡ with_part 16 (block_of header.now) page.old }
{
    header::Signature::put(page, header::SIGNATURE);
    header::Version::put(page, header::VERSION);
    header::State::put(page, u64::from(header.state));
    header::PageSize::put(page, u64::from(header.page_size));
    header::Scn::put(page, u64::from(header.scn));
    header::Guid::put(page, &header.guid);
    header::Pending::put(page, &header.pending);
}
