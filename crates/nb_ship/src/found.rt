/// What stands in the ship file of a standby.
#[derive(Clone, Copy, Debug, PartialEq, Eq)]
pub enum Found {
    /// Its name is free: an increment may be copied there.
    Nothing,
    /// It is no level file, as where a copy was stopped.
    Broken,
    /// It is the level of the backup that the standby has: it was merged.
    Applied,
    /// It goes on from the standby's backup. This is the GUID of its own.
    Next([u8; 16]),
    /// Its merge into the standby was stopped. This is the GUID of its backup.
    Pending([u8; 16]),
}

/// A standby and its ship file.
#[derive(Clone, Copy, Debug, PartialEq, Eq)]
pub struct Look {
    /// The GUID of the standby's backup.
    pub guid: [u8; 16],
    pub found: Found,
}
