ghost use Rattle.std.specs.Prelude.{◌≡◌};

use std::marker::Model;

/// Which files of a catalogue are needed, and which are not.
///
/// Contracts see it as a `Retention`.
#[derive(Drop)]
pub struct Plan {
    pub(crate) kept: u32,
    pub(crate) dropped: Vec<u32>,
    pub(crate) orphans: Vec<u32>,
}

impl Model for Plan {
    ghost use Rattle.nb_catalog.specs.Plans.{Retention};

    ghost Value = { Retention };

    ghost view = { λ p. record { kept = p.kept; dropped = p.dropped.items; orphans = p.orphans.items } };
}

impl Plan {
    /// How many files are needed.
    pub fn kept(&self) -> u32
        ensures { result ≡ self.now.kept }
    {
        self.kept
    }

    /// The places in the list of the files that no restore point to be kept needs, rising.
    pub fn dropped(&self) -> &[u32]
        ensures { result.now ≡ self.now.dropped }
    {
        &self.dropped
    }

    /// The places in the list of the files from which no chain leads down to level 0, rising.
    pub fn orphans(&self) -> &[u32]
        ensures { result.now ≡ self.now.orphans }
    {
        &self.orphans
    }
}
