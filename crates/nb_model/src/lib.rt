//! The words of the whole: what may be asked of the program, what it answers, and what each layer must do.
//!
//! It rests on `nb_fields` and `nb_host`. The types are those of the final program. The definitions stand in `specs/` and
//! compute: `Image`, `Account` and `Strokes` (what stands, and its single changes), `Forms` and `Causes` (how a change is drafted,
//! and why it is refused), `Turns` over `Pages`, `Tables`, `Backups` and `Checks` (what one turn of a session does), `Facts`, `Leaks` and `Danger` (what a check finds), `HistoryRows` (which
//! backups the history names), `Writes` (which statements may write), `Run` and `Output` (a
//! script, what it says and what is acknowledged), `Owner`, `Main`, `Sound` and `Stands` (what files mean), `Levels`, `Restoring`,
//! `InPlace` and `Follows` (level files and lineage), `Waiting` and `Pagewise` (forced writes off), `Trail` and `WellTrail` (what a
//! stop may leave), `Words` and `Jobs`. A layer above cites them in its contracts. `laws`, `table_laws`, `history_laws` and `waiting_laws` show that they
//! mean what they say, and `worked` computes examples.
#![tactic(auto)]

mod fact;
pub mod history_laws;
mod job;
pub mod laws;
mod page_list;
mod reply;
mod rows;
mod statement;
pub mod table_laws;
mod table_name;
mod text;
pub mod waiting_laws;
pub mod worked;

pub use fact::Fact;
pub use job::{Ask, Deed, Job, NameList};
pub use page_list::PageList;
pub use reply::Reply;
pub use rows::RowList;
pub use statement::Statement;
pub use table_name::{MOST_TABLE_NAME, TableName};
pub use text::Text;
