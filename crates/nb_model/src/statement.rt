ghost use Rattle.std.specs.Prelude.{◌≡◌};
ghost use Rattle.nb_model.specs.Writes.{statement_writes};

use crate::{TableName, Text};
use nb_host::Name;

/// What a session may ask.
///
/// Sizes are in bytes, `page` is a page number, `raw` a number of pages and `cache` the number of pages
/// that the cache holds.
#[derive(Drop)]
pub enum Statement {
    /// `create database 'NAME' page_size P raw N`: a fresh database with `raw` raw pages.
    CreateDb {
        name: Name,
        page_size: u32,
        raw: u32,
        cache: u32,
    },
    /// `open 'NAME'`
    OpenDb {
        name: Name,
        cache: u32,
    },
    /// `page new`
    PageNew,
    /// `write N 'TEXT'`
    Write {
        page: u32,
        text: Text,
    },
    /// `read N`
    Read {
        page: u32,
    },
    /// `free N`
    Free {
        page: u32,
    },
    /// `alter database begin backup`: changed pages go to the difference file from now on.
    BeginBackup,
    /// `alter database end backup`: the difference file is merged back.
    EndBackup,
    /// A backup that is under way is ended, and where none is nothing is done. The command line alone spells it.
    Activate,
    /// `backup L to 'NAME'`
    Backup {
        level: u8,
        name: Name,
    },
    /// A backup since the latest one of that GUID. The command line alone spells it.
    BackupSince {
        guid: [u8; 16],
        name: Name,
    },
    /// `copy to 'NAME'`: a copy of the frozen file.
    CopyTo {
        name: Name,
    },
    /// `create table T`
    CreateTable {
        table: TableName,
    },
    /// `drop table T`
    DropTable {
        table: TableName,
    },
    /// `insert T K 'TEXT'`
    Insert {
        table: TableName,
        key: u64,
        text: Text,
    },
    /// `update T K 'TEXT'`
    Update {
        table: TableName,
        key: u64,
        text: Text,
    },
    /// `delete T K`
    Delete {
        table: TableName,
        key: u64,
    },
    /// `get T K`
    Get {
        table: TableName,
        key: u64,
    },
    /// `scan T`
    Scan {
        table: TableName,
    },
    /// `forced writes on` and `forced writes off`
    Forced {
        on: bool,
    },
    /// `access read_only` and `access read_write`
    Access {
        read_only: bool,
    },
    /// `sync`
    Sync,
    /// `check`: whether the inventories and the chains agree with the pages, and which pages are leaked.
    Check,
    /// `reclaim`: each leaked page is given back.
    Reclaim,
    /// `show header`
    ShowHeader,
    /// `show pages`
    ShowPages,
    /// `show image`
    ShowImage,
    /// `show cache`
    ShowCache,
}

impl Statement {
    /// Whether it may write the database: a page of it, or what waits in memory. A copy writes a file of its own and only reads the
    /// database.
    pub fn writes(&self) -> bool
        ensures { result ≡ statement_writes self.now }
    {
        match self {
            Statement::OpenDb { .. }
            | Statement::Read { .. }
            | Statement::CopyTo { .. }
            | Statement::Get { .. }
            | Statement::Scan { .. }
            | Statement::Check
            | Statement::ShowHeader
            | Statement::ShowPages
            | Statement::ShowImage
            | Statement::ShowCache => false,
            Statement::CreateDb { .. }
            | Statement::PageNew
            | Statement::Write { .. }
            | Statement::Free { .. }
            | Statement::BeginBackup
            | Statement::EndBackup
            | Statement::Activate
            | Statement::Backup { .. }
            | Statement::BackupSince { .. }
            | Statement::CreateTable { .. }
            | Statement::DropTable { .. }
            | Statement::Insert { .. }
            | Statement::Update { .. }
            | Statement::Delete { .. }
            | Statement::Forced { .. }
            | Statement::Access { .. }
            | Statement::Sync
            | Statement::Reclaim => true,
        }
    }
}
