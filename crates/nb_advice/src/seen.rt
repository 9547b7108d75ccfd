// What a look at the files told.
use crate::levels::Levels;
use nb_page::{Header, read_header};

/// What stands under a name.
#[derive(Clone, Copy, Debug, PartialEq, Eq)]
pub enum There {
    /// Nothing, or it couldn't be looked at.
    Unknown,
    /// What a stopped creation, copy or restore left, which is a free name.
    Unfinished,
    /// A database in that backup state, or a copy of one.
    Database(u16),
    /// A level file that ends as a whole one does.
    Level,
    /// A level file that isn't whole.
    PartOfLevel,
    /// Something else.
    Other,
}

/// What was looked up after a run, as far as it could be had.
#[derive(Clone, Copy, Debug)]
pub struct Seen {
    /// The backup state that the header of the job's database tells, of a ship that of the primary.
    pub state: Option<u16>,
    /// The GUID that it says is pending: that of the level file which is half merged into it, and zeros where none is.
    pub pending: Option<[u8; 16]>,
    /// When the file of the job's database was written last, in seconds since the start of 1970. Nothing writes it between the begin of a
    /// backup and its end.
    pub written: Option<u64>,
    /// What the header of the standby tells that is shipped to.
    pub standby: Option<Header>,
    /// What stands under the name that the job's file has, or its database, where it names no other.
    pub there: There,
    /// Whether a difference file stands beside that name.
    pub has_delta: bool,
    /// What stands under the name that the refusal gives.
    pub named: There,
    /// How many bytes that file has.
    pub length: Option<u64>,
    /// Which backups the history of the job's database has.
    pub levels: Option<Levels>,
    /// Whether the level file of the job is the one that its standby is of already.
    pub is_merged: bool,
}

impl Seen {
    /// Nothing was seen.
    pub fn nothing() -> Seen {
        Seen {
            state: None,
            pending: None,
            written: None,
            standby: None,
            there: There::Unknown,
            has_delta: false,
            named: There::Unknown,
            length: None,
            levels: None,
            is_merged: false,
        }
    }
}

/// The four bytes at that place, the least first, and 0 where there are fewer.
fn number_at(bytes: &[u8], at: usize) -> u32 {
    match bytes.get(at..at.saturating_add(4)) {
        Some([a, b, c, d]) => u32::from_le_bytes([*a, *b, *c, *d]),
        _ => 0,
    }
}

/// Whether a level file with this start and of this length ends in these last 8 bytes as a whole one does: the mark, the number of its
/// pages, and that many pages before them. Where it doesn't, it isn't whole.
fn ends_whole(first: &[u8; 64], length: u64, last: &[u8; 8]) -> bool {
    let version = number_at(first, 4) % 65_536;
    let page_size = u64::from(number_at(first, 40));
    let count = u64::from(number_at(last, 4));
    let Some(behind) = length.checked_sub(60) else {
        return false;
    };
    // What is left for the numbers of the pages, or of the runs of 1 to 16 pages.
    let Some(numbers) = behind.checked_sub(count * page_size) else {
        return false;
    };
    let fits = if version == 101 {
        numbers == 4 * count
    } else {
        numbers % 8 == 0 && numbers / 8 <= count && count.div_ceil(16) <= numbers / 8
    };
    fits && number_at(last, 0) == u32::MAX
}

/// Whether the file with these first 64 bytes is the level file that a database with this header is of: their GUIDs are the same.
pub fn is_level_of(first: &[u8; 64], header: &Header) -> bool {
    first.starts_with(b"NBAK") && first[8..24] == header.guid[0..16]
}

/// Which backup a level file goes on from, as its head says.
#[derive(Clone, Copy, Debug, PartialEq, Eq)]
pub struct Origin {
    /// The file's own level, 1 to 9.
    pub level: u32,
    pub guid: [u8; 16],
    pub scn: u32,
}

impl Origin {
    /// Reads it from the first 64 bytes of a file, and none where that is no level file.
    pub fn of(first: &[u8; 64]) -> Option<Origin> {
        if !first.starts_with(b"NBAK") {
            return None;
        }
        let mut guid = [0; 16];
        guid.copy_from_slice(&first[24..40]);
        Some(Origin {
            level: number_at(first, 4) / 65_536,
            guid,
            scn: number_at(first, 48),
        })
    }
}

impl There {
    /// What a file is, by its first 64 bytes with zeros after its end, its length, and its last 8 bytes.
    pub fn of(first: &[u8; 64], length: u64, last: &[u8; 8]) -> There {
        if first.starts_with(b"NBAK") {
            return There::of_level(ends_whole(first, length, last));
        }
        if first.iter().all(|byte| *byte == 0) {
            return There::Unfinished;
        }
        match read_header(first) {
            Some(header) => There::of_header(&header),
            None => There::Other,
        }
    }

    fn of_level(is_whole: bool) -> There {
        if is_whole {
            There::Level
        } else {
            There::PartOfLevel
        }
    }

    /// State 3 without a level file that is merged in is that of a name which is free.
    fn of_header(header: &Header) -> There {
        if header.state == 3 && header.pending == [0; 16] {
            There::Unfinished
        } else {
            There::Database(header.state)
        }
    }
}
