//! The backup state of a database, as its header has it.

/// No backup is under way.
pub const NORMAL: u16 = 0;

/// The main file is frozen, and what changes goes to the difference file.
pub const STALLED: u16 = 1;

/// The difference file is merged back into the main file.
pub const MERGE: u16 = 2;

/// The file is no database yet, or a level is being merged into it.
pub const APPLYING: u16 = 3;
