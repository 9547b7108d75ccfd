ghost use Rattle.std.specs.Prelude.{◌≡◌, ◌+◌, ◌%◌, ◌^◌, IsTrue, length, drop};
ghost use Rattle.nb_fields.specs.Places.{is_page_size};
ghost use Rattle.nb_fields.specs.Page.{stamped, generation_of};
ghost use Rattle.nb_page.specs.Head.{head_in};

use nb_fields::fields;
use nb_fields::layouts::head;

/// What the head of a page holds.
#[derive(Clone, Copy, Debug, PartialEq, Eq)]
pub struct PageHead {
    /// The number of a `PageKind`, or any other.
    pub kind: u8,
    /// How often the page was written, modulo 2^32.
    pub generation: u32,
    /// The SCN of the last write.
    pub scn: u32,
    pub number: u32,
}

/// The head of a page.
#[tactic(auto, using(nb_fields::proofs::SizeLaws::size_facts), unfolding(crate::specs::Head::head_in))]
pub fn read_head(page: &[u8]) -> PageHead
    requires { IsTrue (is_page_size (length page.now)) }
    ensures { result ≡ head_in page.now }
{
    fields!(page; kind: head::Kind, generation: head::Generation, scn: head::Scn, number: head::Number);
    PageHead {
        kind: kind as u8,
        generation: generation as u32,
        scn: scn as u32,
        number: number as u32,
    }
}

/// Sets the head of a page that is written, and raises its generation by one, from the greatest to 0.
///
/// What stands after the head stays.
pub fn stamp(page: &mut [u8], kind: u8, scn: u32, number: u32)
    requires { IsTrue (is_page_size (length page.old)) }
    ensures written { page.new ≡ stamped page.old kind (drop 16 page.old) scn number }
    ensures head { head_in page.new
        ≡ record { kind = kind; generation = (generation_of page.old + 1) % 2 ^ 32; scn = scn; number = number } }
    ensures rest { drop 16 page.new ≡ drop 16 page.old }
{
    let generation = (head::Generation::get(page) as u32).wrapping_add(1);
    head::Kind::put(page, u64::from(kind));
    head::Flags::put(page, 0);
    head::Reserved::put(page, 0);
    head::Generation::put(page, u64::from(generation));
    head::Scn::put(page, u64::from(scn));
    head::Number::put(page, u64::from(number));
}
