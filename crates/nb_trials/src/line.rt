// The lines of a text of trials.
use std::alloc::{AllocError, Global};

/// What the lines of a script, and of any other text below a step, begin with.
pub const INDENT: &str = "    ";

/// A line, and its number, from 1.
#[derive(Clone, Copy)]
pub struct Line<'a> {
    pub number: usize,
    pub text: &'a str,
}

/// Whether the line belongs to the step above it.
pub fn is_below(line: &Line) -> bool {
    line.text.starts_with(INDENT)
}

/// All lines but empty ones and remarks, which begin with `#`.
pub fn lines_of<'a>(alloc: Global, text: &'a str) -> Result<Vec<Line<'a>>, AllocError> {
    let mut lines = Vec::new(alloc);
    for (number, text) in (1..).zip(text.lines()) {
        if !text.is_empty() && !text.starts_with('#') {
            lines.push(Line { number, text })?;
        }
    }
    Ok(lines)
}

/// The lines before the first that begins with this word, and those from it on.
pub fn parted<'a>(lines: &'a [Line<'a>], word: &str) -> (&'a [Line<'a>], &'a [Line<'a>]) {
    let is_other = |line: &&Line| !line.text.starts_with(word);
    let count = lines.iter().take_while(is_other).count();
    lines.split_at_checked(count).unwrap_or((lines, &[]))
}

/// The number that a word says.
pub fn number_in(word: &str) -> Option<usize> {
    word.parse().ok()
}

/// A line for each number from the first to the last, in place of `#`.
fn push_each(
    alloc: Global,
    text: &mut String,
    line: &str,
    first: usize,
    last: usize,
) -> Result<(), AllocError> {
    for number in first..=last {
        let number = format!(in alloc; "{number}")?;
        let line = line.replace(alloc, '#', &number)?;
        text.push_str(&line)?;
        text.push('\n')?;
    }
    Ok(())
}

/// `FIRST LAST LINE`: the line for each of these numbers.
fn numbered(line: &str) -> Option<(usize, usize, &str)> {
    let (first, behind) = line.split_once(' ')?;
    let (last, line) = behind.split_once(' ')?;
    Some((number_in(first)?, number_in(last)?, line))
}

fn push_line(alloc: Global, text: &mut String, line: &str) -> Result<(), AllocError> {
    if let Some((first, last, line)) = line.strip_prefix("each ").and_then(numbered) {
        return push_each(alloc, text, line, first, last);
    }
    text.push_str(line)?;
    text.push('\n')
}

/// The text that stands below a step. Its lines may begin with `each FIRST LAST`.
pub fn text_below(alloc: Global, lines: &[Line]) -> Result<String, AllocError> {
    let mut text = String::new(alloc);
    for line in lines {
        push_line(
            alloc,
            &mut text,
            line.text.strip_prefix(INDENT).unwrap_or(""),
        )?;
    }
    Ok(text)
}
