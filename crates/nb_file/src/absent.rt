// The names under which a run saw no file.
ghost use Rattle.std.specs.Prelude.{◌≡◌, true, false, ℕ, List, [], OnOk};
ghost use Rattle.nb_host.specs.Names.{same_name};
ghost use Rattle.nb_file.specs.Absent.{has_name};

use nb_host::Name;
use std::alloc::{AllocError, Global};
use std::marker::Model;

/// The names that led to no file when they were looked at, but for those under which this run has made one since.
///
/// What was decided on a look has to stand when it is acted on. So a file that another program has put under such a name meanwhile is none of
/// this run's to change.
///
/// Contracts see it as the list of these names.
#[derive(Drop)]
pub struct Absent {
    names: Vec<Name>,
}

impl Model for Absent {
    ghost use Rattle.std.specs.Prelude.{ℕ, List};

    ghost Value = { List (List ℕ) };

    ghost view = { λ a. a.names.items };
}

impl Absent {
    pub fn new(alloc: Global) -> Absent
        ensures { result ≡ [] }
    {
        Absent {
            names: Vec::new(alloc),
        }
    }

    pub fn has(&self, name: &Name) -> bool
        ensures { result ≡ has_name self.now name.now }
    {
        self.names.as_slice().contains(name)
    }

    /// Remembers the name. Where there is no memory for it nothing changes.
    pub fn add(&mut self, name: &Name) -> Result<(), AllocError>
        ensures added { OnOk result (has_name self.new name.now ≡ true) }
        ensures others { (other : List ℕ) → has_name self.old other ≡ true → has_name self.new other ≡ true }
    {
        if self.has(name) {
            return Ok(());
        }
        self.names.push(name.copied())?;
        Ok(())
    }

    /// Forgets the name, since this run has made a file there.
    pub fn forget(&mut self, name: &Name)
        ensures gone { has_name self.new name.now ≡ false }
        ensures others { (other : List ℕ) → same_name other name.now ≡ false → has_name self.new other ≡ has_name self.old other }
    {
        self.names.retain(|own| *own != *name);
    }
}
