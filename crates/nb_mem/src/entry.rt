use crate::bytes::Bytes;
use nb_host::Name;

/// A change of one file.
#[derive(Drop)]
pub enum Change {
    /// It was placed there with these bytes, and synced.
    Placed(Bytes),
    Made,
    Removed,
    /// A page was written, at that byte.
    Paged(usize, Bytes),
    Appended(Bytes),
    Synced,
}

/// A question that changes no file.
#[derive(Drop)]
pub enum Question {
    Size,
    Read,
    Guid,
    Time,
}

/// A call that was answered with no fault.
#[derive(Drop)]
pub enum Entry {
    Changed(Name, Change),
    Said(Bytes),
    Asked(Question),
}
