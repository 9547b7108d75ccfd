// What is judged of a trial where it is stopped.
use crate::line::number_in;

/// How a call of the host is kept from being done.
#[derive(Clone, Copy)]
pub enum Kind {
    /// The call fails, and each one after it.
    Stopped,
    /// It fails alone.
    Failing,
}

/// Which calls are stopped, one in each run.
#[derive(Clone, Copy)]
pub enum Calls {
    /// Each one, and where it is a stop, the one after the last, so that nothing is stopped.
    All,
    /// `to NUMBER`: those up to that one.
    To(u64),
    /// `last NUMBER`: the first of so many at the end.
    Last(u64),
    /// `before REPLY NUMBER`: so many calls before the one that says that reply.
    Before(usize, u64),
}

/// What is judged: `stops PICKS` or `fails PICKS`, and of which calls.
#[derive(Clone, Copy)]
pub struct Verdict {
    pub kind: Kind,
    /// So many picks are tried of what a crash then leaves.
    pub picks: u64,
    pub calls: Calls,
}

fn read_calls(words: &str) -> Option<Calls> {
    let (word, rest) = words.split_once(' ').unwrap_or((words, ""));
    match word {
        "" => Some(Calls::All),
        "to" => Some(Calls::To(number_in(rest)? as u64)),
        "last" => Some(Calls::Last(number_in(rest)? as u64)),
        "before" => {
            let (reply, number) = rest.split_once(' ')?;
            Some(Calls::Before(number_in(reply)?, number_in(number)? as u64))
        }
        _ => None,
    }
}

impl Verdict {
    /// The verdict that a line asks for.
    pub fn read(line: &str) -> Option<Verdict> {
        let (word, rest) = line.split_once(' ')?;
        let kind = match word {
            "stops" => Kind::Stopped,
            "fails" => Kind::Failing,
            _ => return None,
        };
        let (picks, calls) = rest.split_once(' ').unwrap_or((rest, ""));
        Some(Verdict {
            kind,
            picks: number_in(picks)? as u64,
            calls: read_calls(calls)?,
        })
    }
}
