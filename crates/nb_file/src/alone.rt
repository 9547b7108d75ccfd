// The names of the files that a run holds alone.
ghost use Rattle.std.specs.Prelude.{◌≡◌, ◌++◌, ◌∷◌, [], OnOk, IfErr};
ghost use Rattle.nb_file.specs.Absent.{has_name};

use nb_host::Name;
use std::alloc::{AllocError, Global};
use std::marker::Model;

/// The names of the files that are held alone from their first use on. Contracts see it as the list of these names, in the order in which they were
/// added.
#[derive(Drop)]
pub struct Alone {
    names: Vec<Name>,
}

impl Model for Alone {
    ghost use Rattle.std.specs.Prelude.{ℕ, List};

    ghost Value = { List (List ℕ) };

    ghost view = { λ a. a.names.items };
}

impl Alone {
    pub fn new(alloc: Global) -> Alone
        ensures { result ≡ [] }
    {
        Alone {
            names: Vec::new(alloc),
        }
    }

    pub fn has(&self, name: &Name) -> bool
        ensures { result ≡ has_name self.now name.now }
    {
        self.names.as_slice().contains(name)
    }

    /// Adds a name at the end. Where there is no memory for it nothing changes.
    pub fn add(&mut self, name: Name) -> Result<(), AllocError>
        ensures added { OnOk result (self.new ≡ self.old ++ name ∷ []) }
        ensures same { IfErr result (λ error. self.new ≡ self.old) }
    {
        self.names.push(name)?;
        Ok(())
    }
}
