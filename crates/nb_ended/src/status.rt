/// How a run ended. Its number is the exit status of the program.
#[derive(Clone, Copy, Debug, PartialEq, Eq)]
pub enum Status {
    /// The job was done to its end, and no statement was refused.
    Done = 0,
    /// At least one reply was a refusal.
    Refused = 1,
    /// The words name no job.
    Usage = 2,
    /// A call of the host failed, and the run ended.
    Device = 3,
    /// Memory ran out, and the run ended.
    Memory = 4,
}
