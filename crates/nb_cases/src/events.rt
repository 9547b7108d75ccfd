// What the backup state says of each event.
ghost use Rattle.std.specs.Prelude.{◌≡◌, ◌<◌, ◌≤◌};
ghost use Rattle.nb_cases.specs.Events.{AreTheCases, IsTheCase, case_at, column_of};

use nb_fields::{CaseTable, cases};

/// What comes to a database, or to a copy of its file.
#[derive(Clone, Copy, Debug, PartialEq, Eq)]
pub enum Event {
    /// The database is opened.
    Attach,
    /// A backup begins, of a level too.
    Begin,
    /// A merge begins, or begins anew where it was stopped.
    End,
    /// One entry of the difference file is merged, or the merge is finished.
    MergeTurn,
    /// A copy of the frozen file is made a database.
    Fixup,
    /// A page is written.
    Write,
    /// The frozen file is copied.
    CopyTo,
    /// A level file is merged into a standby.
    Apply,
    /// It is said whether statements may change pages.
    Access,
}

/// What a state says of an event.
#[derive(Clone, Copy, Debug, PartialEq, Eq)]
pub enum Case {
    /// The event can't come.
    NoCall,
    /// It goes.
    Go,
    /// It is refused as `WrongState`, which names the state.
    WrongState,
    /// It is refused as `Unfinished`.
    Unfinished,
    /// The page goes to the main file.
    Main,
    /// The page goes to the difference file.
    Delta,
    /// The page goes to both files where an entry names it, and otherwise to the main file.
    BothOrMain,
    /// It goes, and the difference file has to be there.
    GoWithDelta,
    /// It goes where there is no difference file.
    GoWithoutDelta,
    /// It goes on with what was stopped, and is refused as `Unfinished` where it is something else.
    GoOrUnfinished,
}

impl Event {
    /// Its column in the table.
    fn column(self) -> usize
        ensures column { result ≡ column_of self }
        ensures within { result < 9 }
    {
        match self {
            Event::Attach => 0,
            Event::Begin => 1,
            Event::End => 2,
            Event::MergeTurn => 3,
            Event::Fixup => 4,
            Event::Write => 5,
            Event::CopyTo => 6,
            Event::Apply => 7,
            Event::Access => 8,
        }
    }
}

impl Case {
    /// The case that a cell of the table stands for.
    fn of_cell(cell: u8) -> Case
        ensures { result ≡ case_at cell }
    {
        match cell {
            1 => Case::Go,
            2 => Case::WrongState,
            3 => Case::Unfinished,
            4 => Case::Main,
            5 => Case::Delta,
            6 => Case::BothOrMain,
            7 => Case::GoWithDelta,
            8 => Case::GoWithoutDelta,
            9 => Case::GoOrUnfinished,
            _ => Case::NoCall,
        }
    }
}

/// The cases of each state, 0 to 3, and each event, in the order in which `Event` has them. `Case::of_cell` says what a cell stands for.
fn table() -> CaseTable<4, 9>
    ensures { AreTheCases result }
{
    cases!(
        [1, 1, 2, 0, 2, 4, 2, 1, 1],
        [7, 2, 1, 0, 8, 5, 1, 2, 2],
        [7, 2, 1, 1, 2, 6, 2, 2, 2],
        [3, 0, 0, 0, 2, 0, 0, 9, 0],
    )
}

/// What a backup state says of an event: 0 normal, 1 stalled, 2 merge, 3 applying.
pub fn case_of(state: u16, event: Event) -> Case
    requires { state ≤ 3 }
    ensures { IsTheCase state event result }
{
    Case::of_cell(table().at(usize::from(state), event.column()))
}
