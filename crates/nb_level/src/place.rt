/// Where a reader stands in a level file.
#[derive(Clone, Copy, Drop)]
pub(crate) struct Place {
    /// The next byte that it reads.
    pub(crate) at: u64,
    /// How many pages it has given.
    pub(crate) count: u32,
    /// The least number that the next page may have. Inside a run it is that page's number.
    pub(crate) least: u32,
    /// A number that may not begin the next run.
    pub(crate) barred: u32,
    /// How many pages of the run are still to come.
    pub(crate) left: u32,
}
