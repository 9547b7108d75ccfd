ghost use Rattle.std.specs.Prelude.{◌≡◌, ◌<◌, ◌≤◌, ◌+◌, [], length, OnOk};
ghost use Rattle.std.specs.List.{slice_index_or};
ghost use Rattle.nb_fields.specs.Places.{most_pages};
ghost use Rattle.nb_chain.specs.Overlay.{mark_of, grown, noted};
ghost use Rattle.nb_chain.specs.declared.overlay.Mark.TheVariants.{Untouched};

use nb_fields::are_zeros;
use std::alloc::{AllocError, Global};
use std::marker::Model;

/// What the level files of a chain say of a page.
#[derive(Clone, Copy, Drop)]
pub(crate) enum Mark {
    /// None of them has it.
    Untouched,
    /// The last of them that has it has zeros there.
    Zeros,
    /// The last of them that has it has other bytes there.
    Filled,
}

/// What the level files of a chain say of each page up to the last that one of them has.
///
/// Contracts see it as the list of its marks.
#[derive(Drop)]
pub(crate) struct Overlay {
    marks: Vec<Mark>,
}

impl Model for Overlay {
    ghost use Rattle.std.specs.Prelude.{List, length, ◌≤◌};
    ghost use Rattle.nb_fields.specs.Places.{most_pages};
    ghost use Rattle.nb_chain.specs.declared.overlay.Mark.{Mark};

    ghost Value = { List Mark };

    ghost view = { λ o. o.marks.items };

    ghost invariant = { λ o. length o.marks.items ≤ most_pages };
}

/// What is said of a page that a level file has.
#[tactic(auto, unfolding(crate::specs::Overlay::mark_of))]
fn mark_of(page: &[u8]) -> Mark
    ensures { result ≡ mark_of page.now }
{
    if are_zeros(page) {
        Mark::Zeros
    } else {
        Mark::Filled
    }
}

impl Overlay {
    /// Nothing is said of any page.
    pub(crate) fn new(alloc: Global) -> Overlay
        ensures { result ≡ [] }
    {
        Overlay {
            marks: Vec::new(alloc),
        }
    }

    /// How many pages there are up to the last of which something is said.
    pub(crate) fn len(&self) -> u32
        ensures value { result ≡ length self.now }
        ensures most { result ≤ most_pages }
    {
        self.marks.len() as u32
    }

    /// What is said of a page.
    pub(crate) fn mark(&self, page: u32) -> Mark
        ensures { result ≡ slice_index_or self.now page Untouched }
    {
        let page = page as usize;
        if page < self.marks.len() {
            self.marks[page]
        } else {
            Mark::Untouched
        }
    }

    /// Makes room for a page.
    fn grow(&mut self, page: u32) -> Result<(), AllocError>
        requires { page < most_pages }
        ensures { OnOk result (self.new ≡ grown self.old page) }
    {
        let len = page as usize + 1;
        if self.marks.len() < len {
            self.marks.resize(len, Mark::Untouched)?;
        }
        Ok(())
    }

    /// Notes a page that a level file has.
    #[tactic(auto, unfolding(crate::specs::Overlay::noted))]
    pub(crate) fn note(&mut self, number: u32, page: &[u8]) -> Result<(), AllocError>
        requires { number < most_pages }
        ensures { OnOk result (self.new ≡ noted self.old (number, page.now)) }
    {
        self.grow(number)?;
        self.marks[number as usize] = mark_of(page);
        Ok(())
    }
}
