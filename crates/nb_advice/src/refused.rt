// The reply that refused a job.
use std::str;

/// A refusal, as its line says it: its name, and the values after that, an empty text for each that it lacks.
#[derive(Clone, Copy)]
pub struct Refused<'a> {
    pub name: &'a str,
    pub values: [&'a str; 3],
}

impl<'a> Refused<'a> {
    /// What a line as `1: refused 6 WrongState 1` says, and none where it is another reply.
    pub fn read(line: &'a [u8]) -> Option<Refused<'a>> {
        let Ok(text) = str::from_utf8(line) else {
            return None;
        };
        let mut words = text.trim_end().split(' ').skip(1);
        if words.next() != Some("refused") {
            return None;
        }
        let _number = words.next()?;
        let name = words.next()?;
        let first = words.next().unwrap_or("");
        let second = words.next().unwrap_or("");
        let third = words.next().unwrap_or("");
        Some(Refused {
            name,
            values: [first, second, third],
        })
    }
}
