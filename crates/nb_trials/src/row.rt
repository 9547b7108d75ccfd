// What may be said of a database that a crash leaves.
use crate::line::{Line, number_in};

/// The first and the last number of replies of a row: `3`, or `0-4`.
fn replies_in(numbers: &str) -> Option<(usize, usize)> {
    let (first, last) = numbers.split_once('-').unwrap_or((numbers, numbers));
    Some((number_in(first)?, number_in(last)?))
}

/// Whether a row is for so many replies.
fn is_within(numbers: &str, replies: usize) -> bool {
    match replies_in(numbers) {
        Some((first, last)) => first <= replies && replies <= last,
        None => false,
    }
}

/// Whether a line is as a choice says. A `*` stands for the rest of it.
fn is_choice(line: &str, choice: &str) -> bool {
    match choice.strip_suffix('*') {
        Some(front) => line.starts_with(front),
        None => line == choice,
    }
}

/// Whether a line is one of the choices of a cell.
fn is_one_of(line: &str, cell: &str) -> bool {
    cell.split(" or ").any(|choice| is_choice(line, choice))
}

/// Whether each line is one of the choices of its cell, and each cell has a line. A `|` stands after each cell.
fn are_those(said: &str, cells: &str) -> bool {
    let are_choices = said
        .lines()
        .zip(cells.split_terminator('|'))
        .all(|(line, cell)| is_one_of(line, cell));
    are_choices && said.lines().count() == cells.split_terminator('|').count()
}

/// Whether a row allows what was said after so many replies.
fn allows(row: &str, replies: usize, said: &str) -> bool {
    match row.trim_start().split_once('|') {
        Some((numbers, cells)) => is_within(numbers, replies) && are_those(said, cells),
        None => false,
    }
}

/// Whether that may be said after so many replies: `REPLIES|LINE|LINE|` is a row.
pub fn may_be_said(rows: &[Line], replies: usize, said: &str) -> bool {
    rows.iter().any(|row| allows(row.text, replies, said))
}
