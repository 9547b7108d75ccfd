//! Where each field stands: one module for each layout, with a law for each.

ghost use Rattle.std.specs.Prelude.{◌≡◌, ◌++◌, codes};
ghost use Rattle.nb_fields.specs.Bytes.{bytes_of};
ghost use Rattle.nb_fields.specs.Header.{header_length, signature, version, catalogue_page, history_page};
ghost use Rattle.nb_fields.specs.Places.{bits_at, entries_at};
ghost use Rattle.nb_fields.specs.Table.{numbers_at};
ghost use Rattle.nb_fields.specs.Layouts.{head_layout, header_layout, numbered_layout, raw_layout, slots_at, slot_length, data_layout, row_layout, catalogue_layout, history_layout, allocation_layout, level_layout, ShareNoByte, AllBefore, end_of};

/// The head of every page: 16 bytes.
pub mod head {
    use crate::Field;

    /// How many bytes it has: the payload of a page begins after it.
    pub const LENGTH: usize = 16;

    /// What the page holds: the number of a `PageKind`.
    pub type Kind = Field<0, 1>;

    pub type Flags = Field<1, 1>;

    pub type Reserved = Field<2, 2>;
    /// How often the page was written, modulo 2^32.
    pub type Generation = Field<4, 4>;
    /// The SCN of the last write: the page's stamp.
    pub type Scn = Field<8, 4>;

    pub type Number = Field<12, 4>;

    /// The fields, of which no two share a byte. They fill the head.
    pub fn layout() -> [(usize, usize); 6]
        ensures places { result ≡ head_layout }
        ensures apart { ShareNoByte head_layout }
        ensures length { LENGTH ≡ end_of 0 head_layout }
    {
        [
            Kind::place(),
            Flags::place(),
            Reserved::place(),
            Generation::place(),
            Scn::place(),
            Number::place(),
        ]
    }
}

/// The header page, after its head. Its first 64 bytes are the head and the control block.
pub mod header {
    use crate::{Bytes16, Field};

    /// How many bytes the head and the control block have.
    pub const LENGTH: usize = 64;

    /// The bytes `NBDB`.
    pub const SIGNATURE: u64 = 0x4244_424E;

    pub const VERSION: u64 = 1;

    /// The first page of the catalogue.
    pub const CATALOGUE_PAGE: u32 = 3;

    /// The first page of the history.
    pub const HISTORY_PAGE: u32 = 4;

    pub type Signature = Field<16, 4>;

    pub type Version = Field<20, 2>;
    /// The backup state: 0 normal, 1 stalled, 2 merge, 3 applying.
    pub type State = Field<22, 2>;

    pub type PageSize = Field<24, 4>;
    /// The current SCN.
    pub type Scn = Field<28, 4>;

    pub type Guid = Bytes16<32>;
    /// The GUID of the level file that is being merged in.
    pub type Pending = Bytes16<48>;
    /// 1 where forced writes are on.
    pub type Forced = Field<64, 1>;
    /// 1 where the database is read-only.
    pub type Access = Field<65, 1>;
    /// Where the catalogue is said to begin. It is written and not read.
    pub type Catalogue = Field<72, 4>;
    /// Where the history is said to begin. It is written and not read.
    pub type History = Field<76, 4>;

    /// The fields, of which no two share a byte, nor one with the head.
    #[tactic(auto, unfolding(crate::specs::Bytes::bytes_of))]
    pub fn layout() -> [(usize, usize); 11]
        ensures places { result ≡ header_layout }
        ensures apart { ShareNoByte (head_layout ++ header_layout) }
        ensures length { LENGTH ≡ header_length }
        ensures signature { SIGNATURE ≡ signature }
        ensures letters { bytes_of 4 SIGNATURE ≡ codes "NBDB" }
        ensures version { VERSION ≡ version }
        ensures catalogue { CATALOGUE_PAGE ≡ catalogue_page }
        ensures history { HISTORY_PAGE ≡ history_page }
    {
        [
            Signature::place(),
            Version::place(),
            State::place(),
            PageSize::place(),
            Scn::place(),
            Guid::place(),
            Pending::place(),
            Forced::place(),
            Access::place(),
            Catalogue::place(),
            History::place(),
        ]
    }
}

/// A page inventory page, after its head: one bit for each page, 1 where the page is free.
pub mod inventory {
    use crate::Field;

    /// Its number among the page inventory pages, from 0.
    pub type Number = Field<16, 4>;

    /// Where the bits begin, the lowest of a byte first.
    pub const BITS_AT: usize = 32;

    /// The field, which shares no byte with the head nor with the bits.
    pub fn layout() -> [(usize, usize); 1]
        ensures places { result ≡ numbered_layout }
        ensures apart { ShareNoByte (head_layout ++ numbered_layout) }
        ensures before { AllBefore BITS_AT numbered_layout }
        ensures bits { BITS_AT ≡ bits_at }
    {
        [Number::place()]
    }
}

/// An SCN inventory page, after its head: one entry of 4 bytes for each page.
pub mod scn_inventory {
    use crate::Field;

    /// Its number among the SCN inventory pages, from 0.
    pub type Number = Field<16, 4>;

    /// Where the entries begin.
    pub const ENTRIES_AT: usize = 32;

    /// The field, which shares no byte with the head nor with the entries.
    pub fn layout() -> [(usize, usize); 1]
        ensures places { result ≡ numbered_layout }
        ensures apart { ShareNoByte (head_layout ++ numbered_layout) }
        ensures before { AllBefore ENTRIES_AT numbered_layout }
        ensures entries { ENTRIES_AT ≡ entries_at }
    {
        [Number::place()]
    }
}

/// A raw page, after its head: a text.
pub mod raw {
    use crate::Field;

    pub type TextLength = Field<16, 2>;

    /// Where the text begins.
    pub const TEXT_AT: usize = 18;

    /// How many bytes a text has at most.
    pub const MOST_TEXT: usize = 200;

    /// The fields, of which no two share a byte, nor one with the head.
    pub fn layout() -> [(usize, usize); 2]
        ensures places { result ≡ raw_layout }
        ensures apart { ShareNoByte (head_layout ++ raw_layout) }
    {
        [TextLength::place(), (TEXT_AT, MOST_TEXT)]
    }
}

/// A data page, after its head: a link of a chain, with slots.
pub mod data {
    use crate::Field;

    /// The next page of the chain, and 0 for none.
    pub type Next = Field<16, 4>;
    /// 0 in the catalogue, 1 in the history, and the number of the first page of its chain in a table.
    pub type Owner = Field<20, 4>;

    /// Where the slots begin.
    pub const SLOTS_AT: usize = 32;

    /// How many bytes a slot has.
    pub const SLOT: usize = 256;

    /// The fields, of which no two share a byte, nor one with the head nor with the slots.
    pub fn layout() -> [(usize, usize); 2]
        ensures places { result ≡ data_layout }
        ensures apart { ShareNoByte (head_layout ++ data_layout) }
        ensures before { AllBefore SLOTS_AT data_layout }
        ensures slots { SLOTS_AT ≡ slots_at }
        ensures slot { SLOT ≡ slot_length }
    {
        [Next::place(), Owner::place()]
    }
}

/// A slot of a table: a row.
pub mod row {
    use crate::Field;

    /// 1 in a slot that is used, 0 in a free one.
    pub type Used = Field<0, 1>;

    pub type TextLength = Field<2, 2>;

    pub type Key = Field<8, 8>;

    /// Where the text begins.
    pub const TEXT_AT: usize = 16;

    /// How many bytes a text has at most.
    pub const MOST_TEXT: usize = 200;

    /// The fields, of which no two share a byte. The slot has them all.
    pub fn layout() -> [(usize, usize); 4]
        ensures places { result ≡ row_layout }
        ensures apart { ShareNoByte row_layout }
        ensures before { AllBefore slot_length row_layout }
    {
        [
            Used::place(),
            TextLength::place(),
            Key::place(),
            (TEXT_AT, MOST_TEXT),
        ]
    }
}

/// A slot of the catalogue: a table's name.
pub mod catalogue {
    use crate::Field;

    /// 1 in a slot that is used, 0 in a free one.
    pub type Used = Field<0, 1>;

    pub type NameLength = Field<2, 2>;
    /// The first page of the table's chain.
    pub type FirstPage = Field<4, 4>;

    /// Where the name begins.
    pub const NAME_AT: usize = 16;

    /// How many bytes a table's name has at most.
    pub const MOST_NAME: usize = 30;

    /// The fields, of which no two share a byte. The slot has them all.
    pub fn layout() -> [(usize, usize); 4]
        ensures places { result ≡ catalogue_layout }
        ensures apart { ShareNoByte catalogue_layout }
        ensures before { AllBefore slot_length catalogue_layout }
    {
        [
            Used::place(),
            NameLength::place(),
            FirstPage::place(),
            (NAME_AT, MOST_NAME),
        ]
    }
}

/// A slot of the history: a backup.
pub mod history {
    use crate::{Bytes16, Field};

    /// 1 in a slot that is used, 0 in a free one.
    pub type Used = Field<0, 1>;

    pub type Level = Field<1, 1>;

    pub type NameLength = Field<2, 2>;
    /// The backup's SCN.
    pub type Scn = Field<4, 4>;
    /// When it was made, in seconds since the start of 1970.
    pub type Time = Field<8, 8>;

    pub type Guid = Bytes16<16>;

    /// Where the name of the backup's file begins.
    pub const NAME_AT: usize = 32;

    /// How many bytes a file's name has at most.
    pub const MOST_NAME: usize = 100;

    /// The fields, of which no two share a byte. The slot has them all.
    pub fn layout() -> [(usize, usize); 7]
        ensures places { result ≡ history_layout }
        ensures apart { ShareNoByte history_layout }
        ensures before { AllBefore slot_length history_layout }
    {
        [
            Used::place(),
            Level::place(),
            NameLength::place(),
            Scn::place(),
            Time::place(),
            Guid::place(),
            (NAME_AT, MOST_NAME),
        ]
    }
}

/// An allocation page of a difference file: a count, and then the numbers of so many pages.
pub mod allocation {
    use crate::Field;

    pub type Count = Field<0, 4>;

    /// Where the numbers begin, of 4 bytes each.
    pub const NUMBERS_AT: usize = 4;

    /// The field, which shares no byte with the numbers.
    pub fn layout() -> [(usize, usize); 1]
        ensures places { result ≡ allocation_layout }
        ensures before { AllBefore NUMBERS_AT allocation_layout }
        ensures numbers { NUMBERS_AT ≡ numbers_at }
    {
        [Count::place()]
    }
}

/// The head of a file of level 1 to 9.
pub mod level {
    use crate::{Bytes16, Field};

    /// How many bytes the head has.
    pub const LENGTH: usize = 52;

    /// The bytes `NBAK`.
    pub const SIGNATURE: u64 = 0x4B41_424E;

    pub type Signature = Field<0, 4>;
    /// 101 or 102.
    pub type Version = Field<4, 2>;

    pub type Level = Field<6, 2>;

    pub type Guid = Bytes16<8>;

    pub type Previous = Bytes16<24>;

    pub type PageSize = Field<40, 4>;

    pub type Scn = Field<44, 4>;

    pub type PreviousScn = Field<48, 4>;

    /// The fields, of which no two share a byte. They fill the head.
    #[tactic(auto, unfolding(crate::specs::Bytes::bytes_of))]
    pub fn layout() -> [(usize, usize); 8]
        ensures places { result ≡ level_layout }
        ensures apart { ShareNoByte level_layout }
        ensures before { AllBefore LENGTH level_layout }
        ensures length { LENGTH ≡ end_of 0 level_layout }
        ensures letters { bytes_of 4 SIGNATURE ≡ codes "NBAK" }
    {
        [
            Signature::place(),
            Version::place(),
            Level::place(),
            Guid::place(),
            Previous::place(),
            PageSize::place(),
            Scn::place(),
            PreviousScn::place(),
        ]
    }
}
