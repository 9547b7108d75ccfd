ghost use Rattle.std.specs.Prelude.{◌≡◌, ◌<◌};
ghost use Rattle.nb_fields.specs.Cases.{cell};

use std::marker::Model;

/// A table of small numbers by row and column.
///
/// Contracts see it as the list of its rows.
#[derive(Drop)]
pub struct CaseTable<const ROWS: usize, const COLS: usize> {
    cells: [[u8; COLS]; ROWS],
}

impl<const ROWS: usize, const COLS: usize> Model for CaseTable<ROWS, COLS> {
    ghost use Rattle.std.specs.Prelude.{List, ℕ};

    ghost Value = { List (List ℕ) };

    ghost view = { λ t. t.cells };
}

impl<const ROWS: usize, const COLS: usize> CaseTable<ROWS, COLS> {
    /// The table of these cells, row by row.
    pub const fn new(cells: [[u8; COLS]; ROWS]) -> Self
        ensures { result ≡ cells.entry }
    {
        CaseTable { cells }
    }

    /// The cell of a row and a column, each counted from 0.
    pub fn at(&self, row: usize, col: usize) -> u8
        requires row_in { row < ROWS }
        requires col_in { col < COLS }
        ensures { result ≡ cell self.now row col }
    {
        self.cells[row][col]
    }
}

/// A table of named cells, row by row.
#[macro_export]
macro_rules! cases {
    ($([$($cell:expr),+ $(,)?]),+ $(,)?) => {
        $crate::CaseTable::new([$([$($cell),+]),+])
    };
}
