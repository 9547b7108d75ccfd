ghost use Rattle.std.specs.Prelude.{◌≡◌, ◌<◌, [], ◌∷◌, ◌++◌, length, Some, OnOk, OnErr, IfErr};
ghost use Rattle.std.specs.Option.{option_copied};
ghost use Rattle.nb_host.specs.declared.faults.Fault.TheVariants.{Memory};
ghost use Rattle.nb_model.specs.Jobs.{file_made, writes};
ghost use Rattle.nb_model.specs.Words.{deed_database, deed_file};

use nb_host::{Fault, Name};
use std::alloc::Global;
use std::marker::Model;

/// Names of files, in order. Contracts see it as the list of their bytes.
#[derive(Drop)]
pub struct NameList {
    names: Vec<Name>,
}

impl Model for NameList {
    ghost use Rattle.std.specs.Prelude.{ℕ, List};

    ghost Value = { List (List ℕ) };

    ghost view = { λ l. l.names.items };
}

impl NameList {
    /// No names. It takes no memory.
    pub fn new(alloc: Global) -> NameList
        ensures { result ≡ [] }
    {
        NameList {
            names: Vec::new(alloc),
        }
    }

    /// One name more, at the end. Where memory runs out the list stays as it is.
    pub fn push(&mut self, name: Name) -> Result<(), Fault>
        ensures ok { OnOk result (self.new ≡ self.old ++ name ∷ []) }
        ensures err { OnErr result (self.new ≡ self.old) }
        ensures only_memory { IfErr result (λ fault. fault ≡ Memory) }
    {
        self.names.push(name)?;
        Ok(())
    }

    pub fn len(&self) -> usize
        ensures { result ≡ length self.now }
    {
        self.names.len()
    }

    pub fn as_slice(&self) -> &[Name]
        ensures { result.now ≡ self.now }
    {
        self.names.as_slice()
    }
}

/// What is asked of a database that is opened for it.
#[derive(Drop)]
pub enum Ask {
    /// `stat DB`: header and pages are shown.
    Stat,
    /// `check DB`: whether its inventories and chains agree with its pages, and which pages are leaked.
    Check,
    /// `reclaim DB`: its leaked pages are given back.
    Reclaim,
    /// `-B L DB FILE`
    Backup { level: u8, file: Name },
    /// `-B GUID DB FILE`
    BackupSince { guid: [u8; 16], file: Name },
    /// `-L DB`: the backup state becomes stalled.
    Lock,
    /// `-L -S DB`: likewise, and the number of pages is said.
    LockWithSize,
    /// `-N DB`: the difference file is merged back.
    Unlock,
    /// `activate DB`: likewise where there is one, so that the database stands in the normal state.
    Activate,
}

impl Ask {
    /// Whether it may write to the database.
    pub fn writes(&self) -> bool
        ensures { result ≡ writes self.now }
    {
        match self {
            Ask::Stat | Ask::Check => false,
            Ask::Reclaim
            | Ask::Backup { .. }
            | Ask::BackupSince { .. }
            | Ask::Lock
            | Ask::LockWithSize
            | Ask::Unlock
            | Ask::Activate => true,
        }
    }

    /// The file that it makes, if it makes one.
    pub fn file(&self) -> Option<&Name>
        ensures { option_copied result ≡ file_made self.now }
    {
        match self {
            Ask::Backup { file, .. } | Ask::BackupSince { file, .. } => Some(file),
            Ask::Stat
            | Ask::Check
            | Ask::Reclaim
            | Ask::Lock
            | Ask::LockWithSize
            | Ask::Unlock
            | Ask::Activate => None,
        }
    }
}

/// What is done in one turn, for which no database is opened.
#[derive(Drop)]
pub enum Deed {
    /// `-R DB FILE..`: 1 to 10 files, level 0 first.
    Restore { db: Name, files: NameList },
    /// `-F DB`: a copy of a stalled database becomes a database of its own.
    Fixup { db: Name },
    /// `-I -R DB FILE`: the file is merged into the standby in place.
    Apply { db: Name, file: Name },
    /// `fold OUT FILE..`: 2 to 9 consecutive level files are folded into one.
    Fold { out: Name, files: NameList },
    /// Which of these backup files, 1,000 at most, the last restore points need, so many of them.
    Plan { keep: u32, files: NameList },
}

impl Deed {
    /// The file that it makes or changes, none where it only reads.
    pub fn file(&self) -> Option<&Name>
        ensures { option_copied result ≡ deed_file self.now }
    {
        match self {
            Deed::Restore { db, .. } | Deed::Fixup { db } | Deed::Apply { db, .. } => Some(db),
            Deed::Fold { out, .. } => Some(out),
            Deed::Plan { .. } => None,
        }
    }

    /// The same, where that is a database.
    pub fn database(&self) -> Option<&Name>
        ensures { option_copied result ≡ deed_database self.now }
    {
        match self {
            Deed::Restore { db, .. } | Deed::Fixup { db } | Deed::Apply { db, .. } => Some(db),
            Deed::Fold { .. } | Deed::Plan { .. } => None,
        }
    }
}

/// What the words of the command line ask for, by its kind.
#[derive(Drop)]
pub enum Job {
    /// `run SCRIPT`
    Run { script: Name },
    /// `gen N SCRIPT`: the script of that number is written and run.
    Gen { number: u64, script: Name },
    /// A database is opened, and asked something.
    Attach { db: Name, ask: Ask },
    /// Something is done in one turn, of which the words tell all.
    Turn { deed: Deed },
    /// `plan K LIST`: the list is read, and its files are planned for, which is one turn.
    Plan { keep: u32, list: Name },
    /// `ship PRIMARY STANDBY`: the standby is brought up to the state of the primary.
    Ship { primary: Name, standby: Name },
}
