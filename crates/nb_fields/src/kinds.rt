ghost use Rattle.std.specs.Prelude.{◌≡◌};
ghost use Rattle.nb_fields.specs.Kinds.{code_of};

/// What a page holds, by the number in its head.
#[derive(Clone, Copy, Debug, PartialEq, Eq)]
pub enum PageKind {
    Header = 1,
    Inventory = 2,
    Data = 5,
    Raw = 8,
    ScnInventory = 10,
}

impl PageKind {
    /// The number that the page's head holds.
    pub fn code(self) -> u8
        ensures { result ≡ code_of self }
    {
        self as u8
    }
}
