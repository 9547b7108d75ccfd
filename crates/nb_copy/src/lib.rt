//! Copying the frozen main file of a stalled database into a backup file, one page a turn, while other sessions' writes go to the
//! difference file.
//!
//! It rests on `nb_engine`, which reads the frozen main file, makes room in the history and begins the backup, and on `nb_gather`,
//! which writes a level file page by page. A layer above may rely on this: each turn deals with one page of the frozen image and
//! touches no file but the one that is made; a crash leaves that file as it was before it was made, or unfinished, so that nothing
//! takes it for a backup, or whole; and once a copier has answered that it is finished, the file has exactly the bytes of its backup
//! and is kept for good. `Copier` is the backup from its begin to its row in the history, which is written only after that; what
//! it is refused is tested before anything is written, and its file is made before it begins, so that a file that can't be made leaves the
//! database in the normal state. `FileCopier` is a copy that the history doesn't note, which makes its file in its first turn.
#![tactic(auto)]

mod copier;
mod file_copier;
mod file_copy;
pub mod laws;
mod level_copy;
mod page_copy;
mod since;

pub use copier::Copier;
pub use file_copier::FileCopier;
pub use level_copy::LevelCopy;
pub use page_copy::PageCopy;
