use crate::{NameList, PageList, RowList, Text};
use nb_host::Refusal;

/// What a statement or a job is answered. Each is one line of the output.
#[derive(Drop)]
pub enum Reply {
    /// `ok`
    Done,
    /// `ok pages C`
    Pages {
        pages: u32,
    },
    /// `ok pages C state X`
    Opened {
        pages: u32,
        state: u16,
    },
    /// `ok page N`
    PageMade {
        page: u32,
    },
    /// `ok 'TEXT'`
    Value {
        text: Text,
    },
    /// `ok scn X`
    Scn {
        scn: u32,
    },
    /// `ok pages C scn X`
    Activated {
        pages: u32,
        scn: u32,
    },
    /// `ok scn X pages C`
    ScnPages {
        scn: u32,
        pages: u32,
    },
    /// `ok level L scn X pages C guid G`: the backup's system change number, and how many pages its file has.
    Level {
        level: u8,
        scn: u32,
        pages: u32,
        guid: [u8; 16],
    },
    /// `ok rows R` and then ` K 'TEXT'` for each row
    Rows {
        rows: RowList,
    },
    /// `ok size P pages C state X scn Y guid G forced F access A delta D`
    HeaderShown {
        page_size: u32,
        pages: u32,
        state: u16,
        scn: u32,
        guid: [u8; 16],
        forced: bool,
        access: u32,
        delta: u32,
    },
    /// `ok header A inventory B scn C data D raw E other F free G`
    PagesShown {
        header: u32,
        inventory: u32,
        scn: u32,
        data_pages: u32,
        raw: u32,
        other: u32,
        free: u32,
    },
    /// `ok pages C sha256 H`
    ImageShown {
        pages: u32,
        sha256: [u8; 32],
    },
    /// `ok cache C held H`
    CacheShown {
        capacity: u32,
        held: u32,
    },
    /// `ok leaked N` and then the numbers of these pages, each after a space
    Leaked {
        pages: PageList,
    },
    /// `ok freed N`
    Freed {
        pages: u32,
    },
    /// `ok keep A drop B orphan C` and then the names of the files that are dropped and of the orphans, each after a space
    Planned {
        kept: u32,
        dropped: NameList,
        orphans: NameList,
    },
    /// `refused`, the number and name of the refusal, and the values of its fields
    Refused {
        refusal: Refusal,
    },
}
