// Which job the flags and the number of plain words choose.
ghost use Rattle.std.specs.Prelude.{◌≡◌, ◌<◌, ◌≤◌, length, nat_eq};
ghost use Rattle.std.specs.List.{position_or_len};
ghost use Rattle.std.specs.Cmp.Lexicographic.{pointwise};
ghost use Rattle.nb_words.specs.Choice.{IsTheChoice, choices, row_at};

use nb_fields::{CaseTable, cases};

/// How often each of B, R, L, S, N, F and I is given, in the sets of flags that name a job, a row of the table each.
const SETS: [[u8; 7]; 8] = [
    [0, 0, 0, 0, 0, 0, 0],
    [1, 0, 0, 0, 0, 0, 0],
    [0, 1, 0, 0, 0, 0, 0],
    [0, 1, 0, 0, 0, 0, 1],
    [0, 0, 1, 0, 0, 0, 0],
    [0, 0, 1, 1, 0, 0, 0],
    [0, 0, 0, 0, 1, 0, 0],
    [0, 0, 0, 0, 0, 1, 0],
];

/// Which of the sets this is, counted from 0, and their number where it is none of them.
fn place(sets: &[[u8; 7]], counts: &[u8; 7]) -> usize
    ensures first { result ≡ position_or_len (λ set. pointwise nat_eq set counts.now) sets.now }
    ensures within { result ≤ length sets.now }
{
    sets.iter().take_while(|set| *set != counts).count()
}

/// The row of flags that are given so often; any that name no job have the last one.
pub(crate) fn row(counts: &[u8; 7]) -> usize
    ensures row { result ≡ row_at counts.now }
    ensures within { result < 9 }
{
    place(SETS.as_slice(), counts)
}

/// The job of each row of flags and each number of plain words, the last column standing for 12 and more. 0 is none, 1
/// is a run or the statistics, 2 the generator, a plan or a ship, 3 is a backup, 4 restoring, 5 locking, 6 locking with the size, 7 unlocking, 8 fixing up,
/// 9 applying and 10 folding.
pub(crate) fn table() -> CaseTable<9, 13>
    ensures cells { result ≡ choices }
    ensures meaning { IsTheChoice result }
{
    cases!(
        [0, 0, 1, 2, 10, 10, 10, 10, 10, 10, 10, 10, 0],
        [0, 0, 0, 3, 0, 0, 0, 0, 0, 0, 0, 0, 0],
        [0, 0, 4, 4, 4, 4, 4, 4, 4, 4, 4, 4, 0],
        [0, 0, 9, 0, 0, 0, 0, 0, 0, 0, 0, 0, 0],
        [0, 5, 0, 0, 0, 0, 0, 0, 0, 0, 0, 0, 0],
        [0, 6, 0, 0, 0, 0, 0, 0, 0, 0, 0, 0, 0],
        [0, 7, 0, 0, 0, 0, 0, 0, 0, 0, 0, 0, 0],
        [0, 8, 0, 0, 0, 0, 0, 0, 0, 0, 0, 0, 0],
        [0, 0, 0, 0, 0, 0, 0, 0, 0, 0, 0, 0, 0],
    )
}
