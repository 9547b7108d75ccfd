//! Trials of whole runs, read from the standard input: each is played on a host in memory of its own, and what its runs say, how they
//! end, and what was asked of the files is told, in the order of the text.
//!
//! It rests on `nb_top`, whose `run` is the whole program, and on `nb_mem`. The text is data, so a trial costs no proof. `stdin` has the
//! trials, and says at its head how they are written, and `stdout` what they must tell.
#![tactic(auto)]

mod bytes;
mod change;
mod line;
mod play;
mod row;
mod show;
mod stop;
mod trial;
mod verdict;

use anyhow::{Context, Result};
use change::keep;
use line::{Line, lines_of};
use nb_mem::MemHost;
use play::{Told, play};
use std::alloc::Global;
use std::io;
use stop::{Case, judge};
use trial::{TITLE, Trial};

/// Judges what is asked of a trial, once it was played.
fn judge_all(alloc: Global, case: &Case, text: &mut String) -> Result<()> {
    for line in case.trial.verdicts {
        let number = line.number;
        judge(alloc, case, line.text, text).context(format_args!("line {number}"))?;
    }
    Ok(())
}

/// Plays a trial on a host with the files that it goes on with.
fn play_from(alloc: Global, trial: Trial, base: &MemHost, told: &mut Told) -> Result<()> {
    let mut whole = MemHost::new(alloc)?;
    keep(&mut whole, base, trial.kept)?;
    play(alloc, &mut whole, trial.steps, told)?;
    let case = Case {
        trial,
        base,
        whole: &whole,
    };
    judge_all(alloc, &case, &mut told.text)
}

/// Plays a trial.
fn play_trial(alloc: Global, trial: Trial, told: &mut Told) -> Result<()> {
    write!(told.text, "{TITLE}{}\n", trial.name)?;
    let mut base = MemHost::new(alloc)?;
    play(alloc, &mut base, trial.before, told)?;
    play_from(alloc, trial, &base, told)
}

/// What is told of the trial of these lines.
fn told_of(alloc: Global, lines: &[Line]) -> Result<Told> {
    let trial = Trial::read(lines).context("no title")?;
    let mut told = Told::new(alloc, true);
    play_trial(alloc, trial, &mut told)?;
    Ok(told)
}

fn tell_all(rt: &impl Print, alloc: Global, lines: &[Line]) -> Result<()> {
    for trial in lines.chunk_by(|_, line| !line.text.starts_with(TITLE)) {
        let told = told_of(alloc, trial)?;
        rt.print(told.text.as_str())?;
    }
    Ok(())
}

fn main(rt: HostRuntime) -> Result<()> {
    let alloc = rt.alloc();
    let text = io::read_to_string(alloc, rt.reader())?;
    let lines = lines_of(alloc, text.as_str())?;
    tell_all(&rt, alloc, &lines)
}
