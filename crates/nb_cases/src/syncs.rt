// Which files a page write syncs.
ghost use Rattle.std.specs.Prelude.{◌≡◌, ◌<◌, ◌≤◌, false};
ghost use Rattle.nb_fields.specs.States.{normal_state};
ghost use Rattle.nb_cases.specs.Syncs.{AreTheSyncs, SyncsOf, row_of, syncs_at};

use nb_fields::{CaseTable, cases};

/// The syncs of a page write, each after what it keeps for good.
#[derive(Clone, Copy, Debug, PartialEq, Eq)]
pub struct Syncs {
    /// One of the difference file after the slot.
    pub slot: bool,
    /// One of the difference file after the allocation page that names a new slot.
    pub table: bool,
    /// One of the main file after its page.
    pub main: bool,
}

impl Syncs {
    /// The syncs that a cell of the table stands for.
    fn of_cell(cell: u8) -> Syncs
        ensures { result ≡ syncs_at cell }
    {
        Syncs {
            slot: cell % 2 == 1,
            table: cell / 2 % 2 == 1,
            main: cell / 4 % 2 == 1,
        }
    }
}

/// The row of a state, 0 to 2, and of whether an entry names the page. In the normal state none does.
fn row(state: u16, has_entry: bool) -> usize
    ensures row { result ≡ row_of state has_entry }
    ensures within { result < 5 }
{
    match (state, has_entry) {
        (0, _) => 0,
        (1, true) => 1,
        (1, false) => 2,
        (_, true) => 3,
        (_, false) => 4,
    }
}

/// The syncs of a write that is to be kept for good, and of every other. In a cell 1 stands for a sync of the difference file after the
/// slot, 2 for one of it after the allocation page, and 4 for one of the main file after its page.
fn table() -> CaseTable<5, 2>
    ensures { AreTheSyncs result }
{
    cases!([4, 0], [1, 0], [3, 1], [1, 0], [4, 0])
}

/// Which syncs a page write makes in a state, where an entry names its page or none does. `kept` is whether the write is to be kept for
/// good before it is answered.
pub fn syncs_of(state: u16, has_entry: bool, kept: bool) -> Syncs
    requires state { state ≤ 2 }
    requires normal { state ≡ normal_state → has_entry ≡ false }
    ensures { SyncsOf state has_entry kept result }
{
    let column = if kept { 0 } else { 1 };
    Syncs::of_cell(table().at(row(state, has_entry), column))
}
