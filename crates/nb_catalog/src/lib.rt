//! A catalogue of backup files: which of them the last restore points need, and which may go.
//!
//! It rests on `nb_level` and `nb_chain`, which read level files and the first file of a chain, and on the lines of `nb_script`. A
//! layer above may rely on this: files are read, and refused, exactly as `specs/Heads` says, and nothing changes; a plan is the one
//! of `specs/Plans`; the files of the line of each restore point are a chain that the model accepts (`specs/Chained`); and no file
//! in the line of a point that is kept is dropped. `read_list` reads the names of the files, by `specs/NameLists`, `named` gives those in
//! some places of a list, and `specs/Turns` has the turn of the job. `laws` says what each plan keeps.
#![tactic(auto)]

mod entry;
mod heads;
pub mod laws;
mod lines;
mod name_list;
mod naming;
mod plan;
mod planning;
mod points;
mod reading;

pub use heads::Catalogue;
pub use name_list::{MOST_NAMES, read_list};
pub use naming::named;
pub use plan::Plan;
pub use planning::plan_files;
pub use reading::catalogue;
