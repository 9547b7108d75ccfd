// One trial of the text.
use crate::line::{Line, is_below, parted};

/// What its title begins with.
pub const TITLE: &str = "== ";

/// A trial: runs on a host of its own, and what is judged where they are stopped.
#[derive(Clone, Copy)]
pub struct Trial<'a> {
    pub name: &'a str,
    /// What is done first. None of it is stopped.
    pub before: &'a [Line<'a>],
    /// `begin NAME..`: what is stopped begins on a new host with these files.
    pub kept: &'a str,
    pub steps: &'a [Line<'a>],
    /// `look`: what is asked of what a crash leaves.
    pub look: &'a [Line<'a>],
    /// `rows`: what that may say.
    pub rows: &'a [Line<'a>],
    /// What is judged: `ends DB SCN`, `stops PICKS` and `fails PICKS`.
    pub verdicts: &'a [Line<'a>],
}

/// The lines after the first.
fn behind<'a>(lines: &'a [Line<'a>]) -> &'a [Line<'a>] {
    lines.get(1..).unwrap_or(&[])
}

/// The lines that belong to the step above them, and the others.
fn parted_below<'a>(lines: &'a [Line<'a>]) -> (&'a [Line<'a>], &'a [Line<'a>]) {
    let count = lines.iter().take_while(|line| is_below(line)).count();
    lines.split_at_checked(count).unwrap_or((lines, &[]))
}

/// The names in the line that begins what is stopped.
fn names_in<'a>(begun: &'a [Line<'a>]) -> &'a str {
    match begun.first() {
        Some(line) => line.text.strip_prefix("begin").unwrap_or(""),
        None => "",
    }
}

impl<'a> Trial<'a> {
    /// The trial of these lines, of which the first is its title.
    pub fn read(lines: &'a [Line<'a>]) -> Option<Trial<'a>> {
        let (title, body) = lines.split_first()?;
        let name = title.text.strip_prefix(TITLE)?;
        let (played, judged) = parted(body, "look");
        let (before, begun) = parted(played, "begin");
        let (look, judged) = parted(behind(judged), "rows");
        let (rows, verdicts) = parted_below(behind(judged));
        Some(Trial {
            name,
            before,
            kept: names_in(begun),
            steps: behind(begun),
            look,
            rows,
            verdicts,
        })
    }
}
