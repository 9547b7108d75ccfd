// What is looked for in a chain, and what a walk comes by.
ghost use Rattle.std.specs.Prelude.{◌≡◌, IsTrue, length};
ghost use Rattle.nb_model.specs.Chains.{is_filled};
ghost use Rattle.nb_table.specs.Walks.{chain_of, has};
ghost use Rattle.nb_walk.specs.Walks.{chain_by};

use crate::slots::{is_named, key_of};
use nb_model::TableName;
use nb_walk::Chain;

/// As many tables as a database may have.
pub(crate) const MOST_TABLES: u32 = 12;

/// As many bytes as a slot has.
pub(crate) const SLOT: usize = 256;

/// What is looked for.
#[derive(Drop)]
pub(crate) enum Sought {
    /// The slot of that table, in the catalogue.
    Table(TableName),
    /// The slot of the row with that key, in the chain that begins with page `first`.
    Row { first: u32, key: u64 },
}

impl Sought {
    /// The chain in which it is looked for.
    pub(crate) fn chain(&self) -> Chain
        ensures { chain_by result ≡ chain_of self.now }
    {
        match self {
            Sought::Table(_) => Chain::Tables,
            Sought::Row { first, .. } => Chain::Rows(*first),
        }
    }

    /// Whether a used slot of that chain holds it.
    pub(crate) fn is_in(&self, slot: &[u8]) -> bool
        requires size { length slot.now ≡ 256 }
        requires filled { IsTrue (is_filled (chain_of self.now) slot.now) }
        ensures { result ≡ has self.now slot.now }
    {
        match self {
            Sought::Table(name) => is_named(slot, name),
            Sought::Row { key, .. } => key_of(slot) == *key,
        }
    }
}

/// Where a slot stands: its page, and its number there, from 0.
#[derive(Clone, Copy, Debug, PartialEq, Eq)]
pub(crate) struct Place {
    pub(crate) page: u32,
    pub(crate) slot: u32,
}

/// A slot and what it holds.
#[derive(Drop)]
pub(crate) struct Found {
    pub(crate) place: Place,
    pub(crate) bytes: [u8; SLOT],
}

/// What a walk has come by.
#[derive(Drop)]
pub(crate) struct Walked {
    /// The first slot that is looked for.
    pub(crate) found: Option<Found>,
    /// The first free slot.
    pub(crate) room: Option<Place>,
    /// How many slots are used, counted up to `MOST_TABLES`.
    pub(crate) used: u32,
}
