use crate::Name;
use thiserror::Error;

/// Why a statement or a job is refused. Reply lines number the variants from 1, in this order.
///
/// A refused statement has changed no file.
#[derive(Debug, Drop, Error)]
pub enum Refusal {
    /// The words of the command line name no job.
    #[error("the words name no job")]
    Usage,
    /// The first line, from 1, that breaks the form of a script.
    #[error("the bytes spell no script")]
    BadScript {
        line: u32,
    },
    #[error("the file is not there")]
    NoFile {
        name: Name,
    },
    /// The name for a new file is not free.
    #[error("the file is there already")]
    FileExists {
        name: Name,
    },
    /// The header, the length or a page is not of the form. The page is the first such.
    #[error("the file is no database")]
    NotDatabase {
        page: u32,
    },
    /// The backup state, 0 to 3, doesn't allow the event.
    #[error("the backup state forbids it")]
    WrongState {
        found: u32,
    },
    /// The difference file breaks its form at that page of its own.
    #[error("the difference file is broken")]
    BadDelta {
        page: u32,
    },
    /// A restore or a merge into this database was stopped.
    #[error("the database is unfinished")]
    Unfinished,
    /// The database has `count` pages.
    #[error("the page is past the end")]
    PageRange {
        page: u32,
        count: u32,
    },
    #[error("the page is not allocated")]
    NotAllocated {
        page: u32,
    },
    /// The page is none for raw text.
    #[error("the page belongs to the system")]
    SystemPage {
        page: u32,
    },
    /// The database has `count` pages, as many as it may have, and none of them is free.
    #[error("the database is full")]
    Full {
        count: u32,
    },
    #[error("no system change number is left")]
    ScnExhausted {
        scn: u32,
    },
    /// There was no backup of that level to go on from.
    #[error("the history has no such level")]
    NoHistory {
        level: u32,
    },
    /// The byte at which a level file breaks its form.
    #[error("the level file is broken")]
    BadLevel {
        name: Name,
        at: u64,
    },
    #[error("the file has another level than its place in the chain")]
    ChainLevel {
        name: Name,
        found: u32,
        wanted: u32,
    },
    /// `found` is the previous GUID of the file, and `wanted` the GUID of the one before it.
    #[error("the file goes on from another backup")]
    ChainGuid {
        name: Name,
        found: [u8; 16],
        wanted: [u8; 16],
    },
    #[error("the file has another page size")]
    ChainSize {
        name: Name,
        found: u32,
        wanted: u32,
    },
    #[error("the file goes on from another system change number")]
    ChainScn {
        name: Name,
        found: u32,
        wanted: u32,
    },
    /// 1: the database is read-only. 0: it is not, where it has to be.
    #[error("the access forbids it")]
    Access {
        found: u32,
    },
    /// In bytes; a page or row holds 200.
    #[error("the text is too long")]
    TextLong {
        len: u64,
    },
    #[error("no table has that name")]
    NoTable,
    #[error("a table has that name already")]
    TableExists,
    #[error("the table has that key already")]
    KeyExists {
        key: u64,
    },
    #[error("the table lacks that key")]
    NoKey {
        key: u64,
    },
    #[error("there are as many tables as there may be")]
    TooManyTables,
    /// A copy or merge of that session has not finished.
    #[error("a backup is running")]
    BackupRunning {
        session: u32,
    },
    #[error("a difference file stands beside the database")]
    DeltaPresent {
        name: Name,
    },
    #[error("the script is too long")]
    ScriptLong {
        bytes: u64,
    },
    /// No backup of that GUID is in the history.
    #[error("the history has no such GUID")]
    NoGuid {
        guid: [u8; 16],
    },
    /// The number of the inventory fact that fails, and the first page at which it does.
    #[error("the inventories are unsound")]
    Unsound {
        fact: u32,
        page: u32,
    },
    /// The script names the shadow.
    #[error("the name is that of the shadow")]
    ShadowName {
        name: Name,
    },
}
