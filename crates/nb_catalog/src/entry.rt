/// A file of a catalogue.
#[derive(Clone, Copy, Drop)]
pub(crate) struct Entry {
    /// Its place in the list.
    pub(crate) place: u32,
    pub(crate) level: u16,
    /// The SCN of its backup.
    pub(crate) scn: u32,
}
