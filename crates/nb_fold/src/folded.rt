use nb_level::LevelHead;

/// What was made of the files.
#[derive(Clone, Copy, Debug, PartialEq, Eq)]
pub struct Folded {
    /// The head of the file that was made.
    pub head: LevelHead,
    /// How many pages it has.
    pub pages: u32,
}
