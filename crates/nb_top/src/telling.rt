/// How much is said of what a run does.
#[derive(Clone, Copy, Debug, PartialEq, Eq)]
pub enum Telling {
    /// Every reply.
    All,
    /// Of the first statement only why it is refused.
    Quietly,
    /// The same, and of a begin also how many pages the database has.
    WithSize,
    /// Only refusals, and the pages by kind.
    Sparingly,
}
