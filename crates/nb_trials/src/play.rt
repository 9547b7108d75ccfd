// The steps of a trial, one after another on a host in memory.
use crate::change::{Change, change_file, keep_alone, put, put_text};
use crate::line::{Line, is_below, number_in, text_below};
use crate::show::{Show, tell_file};
use anyhow::{Context, Result};
use nb_mem::MemHost;
use nb_top::{Status, run, run_read};
use nb_words::read_job;
use std::alloc::{AllocError, Global};

/// A step, as a line and those below it have it.
#[derive(Clone, Copy)]
enum Step<'a> {
    /// `run`: the script below is placed as `s`, and run.
    Script(&'a [Line<'a>]),
    /// `runs FIRST LAST`: the same for each of these numbers, with the number in place of every `#`.
    Scripts(usize, usize, &'a [Line<'a>]),
    /// `words WORD..`: a run by these words.
    Words(&'a str),
    /// `broken NAME`: a run of that script, and which line of it breaks its form.
    Broken(&'a str),
    /// `keep NAME..`: the trial goes on with these files alone, on a new host.
    Keep(&'a str),
    /// A change of the file of that name.
    Change(&'a str, Change<'a>),
    /// Something is asked of the file of that name.
    Show(&'a str, Show<'a>),
    /// `calls`: how many calls of the host the last run made.
    Calls,
    /// `reads`: how many of them read bytes of a file.
    Reads,
}

impl<'a> Step<'a> {
    fn read(line: &'a str, below: &'a [Line<'a>]) -> Option<Step<'a>> {
        let (verb, rest) = line.split_once(' ').unwrap_or((line, ""));
        match verb {
            "run" => Some(Step::Script(below)),
            "runs" => {
                let (first, last) = rest.split_once(' ')?;
                Some(Step::Scripts(number_in(first)?, number_in(last)?, below))
            }
            "words" => Some(Step::Words(rest)),
            "broken" => Some(Step::Broken(rest)),
            "keep" => Some(Step::Keep(rest)),
            "calls" => Some(Step::Calls),
            "reads" => Some(Step::Reads),
            _ => {
                let (name, rest) = rest.split_once(' ').unwrap_or((rest, ""));
                match Change::read(verb, rest, below) {
                    Some(change) => Some(Step::Change(name, change)),
                    None => Some(Step::Show(name, Show::read(verb, rest)?)),
                }
            }
        }
    }
}

/// What is told of a trial.
#[derive(Drop)]
pub struct Told {
    pub text: String,
    /// Whether it is told, too, how each run ends.
    pub with_ends: bool,
    /// How many calls, and reads, the host had counted as the last run began.
    calls: u64,
    reads: u64,
}

impl Told {
    pub fn new(alloc: Global, with_ends: bool) -> Told {
        Told {
            text: String::new(alloc),
            with_ends,
            calls: 0,
            reads: 0,
        }
    }
}

fn words_of(alloc: Global, line: &str) -> Result<Vec<String>, AllocError> {
    let mut words = Vec::new(alloc);
    for word in line.split_whitespace() {
        words.push(String::from_str(alloc, word)?)?;
    }
    Ok(words)
}

/// Does what the words of a line ask.
pub fn run_line(alloc: Global, host: &mut MemHost, line: &str) -> Result<Status, AllocError> {
    let words = words_of(alloc, line)?;
    Ok(run(alloc, &words, host))
}

/// Tells what was said after so many bytes, and how the run ended.
fn tell_run(host: &MemHost, before: usize, status: Status, told: &mut Told) -> Result<()> {
    let lines = host.output().get(before..).context("less was said")?;
    told.text.push_str(str::from_utf8(lines)?)?;
    if told.with_ends {
        write!(told.text, "status {}\n", status as u8)?;
    }
    Ok(())
}

/// A run begins. It answers how many bytes the host has said before.
fn begin(host: &MemHost, told: &mut Told) -> usize {
    told.calls = host.calls();
    told.reads = host.read_count();
    host.output().len()
}

/// Does what the words of a line ask, and tells it. It answers whether the host can go on.
pub fn tell_line(alloc: Global, host: &mut MemHost, line: &str, told: &mut Told) -> Result<bool> {
    let before = begin(host, told);
    let status = run_line(alloc, host, line)?;
    tell_run(host, before, status, told)?;
    Ok(status != Status::Device)
}

/// Runs a script for each of these numbers. It answers whether the host can go on.
fn run_each(
    alloc: Global,
    host: &mut MemHost,
    first: usize,
    last: usize,
    lines: &[Line],
    told: &mut Told,
) -> Result<bool> {
    let text = text_below(alloc, lines)?;
    for number in first..=last {
        let number = format!(in alloc; "{number}")?;
        let script = text.replace(alloc, '#', &number)?;
        put(host, "s", script.as_bytes())?;
        if !tell_line(alloc, host, "run s", told)? {
            return Ok(false);
        }
    }
    Ok(true)
}

/// Runs the script of that name, and tells the number of the line that breaks its form and what is shown of it, or that none does. It answers
/// whether the host can go on.
fn tell_broken(alloc: Global, host: &mut MemHost, name: &str, told: &mut Told) -> Result<bool> {
    let words = words_of(alloc, &format!(in alloc; "run {name}")?)?;
    let before = begin(host, told);
    let mut broken = None;
    let status = run_read(
        alloc,
        &read_job(alloc, &words),
        host,
        &mut broken,
        &mut None,
    );
    tell_run(host, before, status, told)?;
    match broken {
        Some(broken) => write!(told.text, "{name}: line {}: {}\n", broken.line, broken.text)?,
        None => write!(told.text, "{name}: no line\n")?,
    }
    Ok(status != Status::Device)
}

/// Tells how far a count has gone since the last run began.
fn tell_count(count: u64, before: u64, what: &str, text: &mut String) -> Result<(), AllocError> {
    write!(text, "{} {what}\n", count.saturating_sub(before))
}

fn do_step(alloc: Global, host: &mut MemHost, step: Step, told: &mut Told) -> Result<bool> {
    match step {
        Step::Script(lines) => {
            put_text(alloc, host, "s", lines)?;
            return tell_line(alloc, host, "run s", told);
        }
        Step::Scripts(first, last, lines) => {
            return run_each(alloc, host, first, last, lines, told);
        }
        Step::Words(line) => return tell_line(alloc, host, line, told),
        Step::Broken(name) => return tell_broken(alloc, host, name, told),
        Step::Keep(names) => keep_alone(alloc, host, names)?,
        Step::Change(name, change) => change_file(alloc, host, name, change)?,
        Step::Show(name, asked) => tell_file(alloc, host, name, asked, &mut told.text)?,
        Step::Calls => tell_count(host.calls(), told.calls, "calls", &mut told.text)?,
        Step::Reads => tell_count(host.read_count(), told.reads, "reads", &mut told.text)?,
    }
    Ok(true)
}

/// Does what a line asks, with those below it.
fn do_line(
    alloc: Global,
    host: &mut MemHost,
    line: &str,
    below: &[Line],
    told: &mut Told,
) -> Result<bool> {
    let step = Step::read(line, below).context("no step")?;
    do_step(alloc, host, step, told)
}

/// Goes through the steps, up to a run that a call of the host ends.
pub fn play(alloc: Global, host: &mut MemHost, steps: &[Line], told: &mut Told) -> Result<()> {
    for part in steps.chunk_by(|_, line| is_below(line)) {
        let Some((line, below)) = part.split_first() else {
            return Ok(());
        };
        let number = line.number;
        let goes_on = do_line(alloc, host, line.text, below, told).context(format_args!(
            "line {number}"
        ))?;
        if !goes_on {
            return Ok(());
        }
    }
    Ok(())
}
