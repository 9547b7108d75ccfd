// The first step of a ship.
ghost use Rattle.std.specs.Prelude.{◌≡◌, ◌<◌, ℕ, List, Ok};
ghost use Rattle.nb_fields.specs.Header.{guid_of};
ghost use Rattle.nb_host.specs.Files.{Files};
ghost use Rattle.nb_ship.specs.Finds.{IsFor};
ghost use Rattle.nb_ship.specs.Looks.{look_at};
ghost use Rattle.nb_ship.specs.Steps.{AreTheSteps, column_of, first_step, row_of, step_at};

use crate::{Found, Look};
use nb_fields::{CaseTable, cases};

/// A step of a ship.
#[derive(Clone, Copy, Debug, PartialEq, Eq)]
pub enum Step {
    /// The primary is backed up into the ship file, since the standby's backup.
    Copy,
    /// The ship file is merged into the standby.
    Apply,
    /// The ship file is removed.
    Discard,
}

impl Found {
    /// Its row in the table.
    fn row(self) -> usize
        ensures row { result ≡ row_of self }
        ensures within { result < 5 }
    {
        match self {
            Found::Nothing => 0,
            Found::Broken => 1,
            Found::Applied => 2,
            Found::Next(_) => 3,
            Found::Pending(_) => 4,
        }
    }
}

impl Step {
    /// The step that a cell of the table stands for.
    fn of_cell(cell: u8) -> Step
        ensures { result ≡ step_at cell }
    {
        match cell {
            0 => Step::Copy,
            1 => Step::Apply,
            _ => Step::Discard,
        }
    }
}

/// The first step for each `Found`, in the order in which they stand there: of a backup that the primary's history names, and of every
/// other. In a cell 0 stands for a copy, 1 for a merge and 2 for a removal.
fn table() -> CaseTable<5, 2>
    ensures { AreTheSteps result }
{
    cases!([0, 0], [2, 2], [2, 2], [1, 2], [1, 1])
}

/// The first step of a ship after a look. `known` is whether the primary's history names the backup of the next increment, of which the
/// other cases don't ask.
///
/// A copy is made where its file's name is free. The ship file is merged where it goes on from the standby, and either its merge was begun or
/// the history names its backup: otherwise the next copy, which goes on from it, would find none. It is removed where it is of no use.
pub fn decide(look: &Look, known: bool) -> Step
    ensures value { result ≡ first_step look.now.found known }
    ensures reason { (files : Files) (standby : List ℕ) → look_at files standby ≡ Ok look.now
        → (bytes : List ℕ) × (look.now.guid ≡ guid_of bytes) × IsFor files standby bytes known result }
{
    let column = if known { 0 } else { 1 };
    Step::of_cell(table().at(look.found.row(), column))
}
