// Which chains there are, and what their slots hold.
ghost use Rattle.std.specs.Prelude.{◌≡◌, length};
ghost use Rattle.nb_model.specs.Chains.{first_of, owner_of, is_filled};
ghost use Rattle.nb_walk.specs.Walks.{chain_by};

use crate::slots::{is_backup, is_row, is_table};
use nb_fields::layouts::header;

/// A chain of data pages, by what its slots hold.
#[derive(Clone, Copy, Debug, PartialEq, Eq)]
pub enum Chain {
    /// The tables: the catalogue.
    Tables,
    /// The backups: the history.
    Backups,
    /// The rows of the table whose chain begins with that page.
    Rows(u32),
}

impl Chain {
    /// Its first page.
    pub fn first(self) -> u32
        ensures { result ≡ first_of (chain_by self) }
    {
        match self {
            Chain::Tables => header::CATALOGUE_PAGE,
            Chain::Backups => header::HISTORY_PAGE,
            Chain::Rows(first) => first,
        }
    }

    /// What stands in the owner field of each of its pages.
    pub(crate) fn owner(self) -> u32
        ensures { result ≡ owner_of (chain_by self) }
    {
        match self {
            Chain::Tables => 0,
            Chain::Backups => 1,
            Chain::Rows(first) => first,
        }
    }

    /// Whether what a used slot of it holds is of the form.
    pub(crate) fn is_filled(self, slot: &[u8]) -> bool
        requires { length slot.now ≡ 256 }
        ensures { result ≡ is_filled (chain_by self) slot.now }
    {
        match self {
            Chain::Tables => is_table(slot),
            Chain::Backups => is_backup(slot),
            Chain::Rows(_) => is_row(slot),
        }
    }
}
