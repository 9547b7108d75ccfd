/// What a reader of a level file gives.
#[derive(Clone, Copy, Debug, PartialEq, Eq)]
pub enum Item {
    /// A page, with its number in the database.
    PageAt(u32),
    /// The end, after so many pages.
    End(u32),
}
