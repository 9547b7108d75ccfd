ghost use Rattle.std.specs.Prelude.{◌≡◌};
ghost use Rattle.nb_model.specs.Facts.{number_of};

/// What is true of the inventories and the pages of every sound database.
#[derive(Clone, Copy, Debug, PartialEq, Eq)]
pub enum Fact {
    /// No page is all zeros.
    BlankPage = 1,
    /// Each system place has its system page.
    SystemPlace = 2,
    /// No page at or past the end is taken.
    TakenPast = 3,
    /// No stamp is above the current SCN.
    LateStamp = 4,
    /// Each SCN entry is at least the stamp of its page and at most the current SCN.
    WrongEntry = 5,
    /// The header's stamp is the current SCN.
    HeaderStamp = 6,
}

impl Fact {
    /// Its number, as refusals have it.
    pub fn number(self) -> u32
        ensures { result ≡ number_of self }
    {
        self as u32
    }
}
