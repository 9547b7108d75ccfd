// A statement of many turns that is under way.
ghost use Rattle.std.specs.Prelude.{◌≡◌, Some};
ghost use Rattle.nb_session.specs.Askers.{task_left};

use nb_copy::{Copier, FileCopier};
use nb_model::Reply;

/// What a copy lies above, and an end: each turn of a statement lowers what is left of it, from its copy to its merge.
const COPIES: u64 = 17_179_869_184;

const ENDS: u64 = 8_589_934_592;

/// A merge that is under way.
#[derive(Drop)]
pub struct Merging {
    /// How many pages have still to be merged.
    pub left: u32,
    /// What is said once all are merged.
    pub reply: Reply,
}

/// What is left of a statement that takes many turns.
#[derive(Drop)]
pub enum Task {
    /// A backup: its pages, and then its row of the history.
    Backup(Copier),
    /// A copy of the frozen file.
    Copy(FileCopier),
    /// The end of the stalled state after a backup, of which this is said once all is merged.
    End(Reply),
    Merge(Merging),
}

impl Task {
    /// How much is left of it.
    pub fn left(&self) -> u64
        ensures { result ≡ task_left (Some self.now) }
    {
        match self {
            Task::Backup(copier) => COPIES + u64::from(copier.left()),
            Task::Copy(copier) => COPIES + u64::from(copier.left()),
            Task::End(_) => ENDS,
            Task::Merge(merging) => u64::from(merging.left) + 1,
        }
    }
}

/// What is under way of a statement after a turn, if anything is, and whether it was refused.
#[derive(Drop)]
pub struct Taken {
    pub task: Option<Task>,
    pub refused: bool,
}

/// What a turn left of a statement that was under way.
#[derive(Drop)]
pub enum Left {
    /// The same, changed in its place.
    Same,
    /// Something else, or nothing.
    Other(Taken),
}
