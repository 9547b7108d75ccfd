// Trials that are stopped at a call of the host, or of which a call fails.
use crate::change::{file_of, keep};
use crate::play::{Told, play, tell_line};
use crate::row::may_be_said;
use crate::trial::Trial;
use crate::verdict::{Calls, Kind, Verdict};
use anyhow::{Context, Result};
use nb_mem::MemHost;
use std::alloc::{AllocError, Global};

/// A trial, the host that it begins on, and the one on which nothing stopped it.
#[derive(Clone, Copy)]
pub struct Case<'a> {
    pub trial: Trial<'a>,
    pub base: &'a MemHost,
    pub whole: &'a MemHost,
}

fn replies_of(host: &MemHost) -> usize {
    host.output().iter().filter(|byte| **byte == b'\n').count()
}

/// Goes through the trial on that host.
fn play_on(alloc: Global, case: &Case, host: &mut MemHost) -> Result<()> {
    keep(host, case.base, case.trial.kept)?;
    let mut told = Told::new(alloc, false);
    play(alloc, host, case.trial.steps, &mut told)
}

/// The host after the trial, where that call is stopped.
fn host_at(alloc: Global, case: &Case, kind: Kind, call: u64) -> Result<MemHost> {
    let mut host = match kind {
        Kind::Stopped => MemHost::fused(alloc, call)?,
        Kind::Failing => MemHost::failing(alloc, &[call])?,
    };
    play_on(alloc, case, &mut host)?;
    Ok(host)
}

/// The first call at which a stop lets so many replies be said: the one after that of the last of them.
fn call_behind(alloc: Global, case: &Case, replies: usize) -> Result<u64> {
    for call in 1..=case.whole.calls() {
        if replies_of(&host_at(alloc, case, Kind::Stopped, call)?) >= replies {
            return Ok(call);
        }
    }
    Ok(0)
}

/// The first and the last of the calls that are stopped.
fn calls_of(alloc: Global, case: &Case, verdict: Verdict) -> Result<(u64, u64)> {
    let behind = case.whole.calls().saturating_add(1);
    match (verdict.calls, verdict.kind) {
        (Calls::All, Kind::Stopped) => Ok((1, behind)),
        (Calls::All, Kind::Failing) => Ok((1, case.whole.calls())),
        (Calls::To(last), _) => Ok((1, last)),
        (Calls::Last(number), _) => {
            let call = behind.saturating_sub(number);
            Ok((call, call))
        }
        (Calls::Before(replies, number), _) => {
            let behind = call_behind(alloc, case, replies)?;
            let call = behind.saturating_sub(1).saturating_sub(number);
            Ok((call, call))
        }
    }
}

/// Whether the run came to its end at that call, where there is one, and has said a front of what the whole one says.
fn has_ended_at(host: &MemHost, whole: &MemHost, call: u64) -> bool {
    let calls = call.min(whole.calls());
    let faults = u64::from(call == calls);
    host.calls() == calls
        && host.fault_count() == faults
        && host.memory_count() == 0
        && whole.output().starts_with(host.output())
}

/// What is to be said where `-N` ends a backup, if one was under way, and the same is asked again: the same but for the state.
fn said_behind(alloc: Global, said: &str, scn: &str) -> Result<Option<String>, AllocError> {
    let Some((front, rest)) = said.split_once(" state ") else {
        return Ok(None);
    };
    match rest.strip_prefix('0') {
        Some(_) => Ok(Some(format!(in alloc; "1: refused 6 WrongState 0\n{said}")?)),
        None => {
            let rest = rest.get(1..).unwrap_or("");
            Ok(Some(format!(in alloc; "1: ok scn {scn}\n{front} state 0{rest}")?))
        }
    }
}

/// Whether `-N` and what is asked again say that, and the difference file is gone where a backup was ended.
fn ends_as(alloc: Global, case: &Case, host: &mut MemHost, db: &str, wanted: &str) -> Result<bool> {
    let mut told = Told::new(alloc, false);
    tell_line(alloc, host, &format!(in alloc; "-N {db}")?, &mut told)?;
    play(alloc, host, case.trial.look, &mut told)?;
    let delta = format!(in alloc; "{db}.delta")?;
    let is_gone = file_of(host, &delta).is_none() || wanted.starts_with("1: refused");
    Ok(is_gone && told.text.as_str() == wanted)
}

/// Whether a backup of which a look has told ends as `ends DB SCN` says, if the trial says so.
fn ends_well(alloc: Global, case: &Case, host: &mut MemHost, said: &str) -> Result<bool> {
    let mut verdicts = case.trial.verdicts.iter();
    let Some(ends) = verdicts.find_map(|line| line.text.strip_prefix("ends ")) else {
        return Ok(true);
    };
    let (db, scn) = ends.split_once(' ').context("no SCN")?;
    match said_behind(alloc, said, scn)? {
        Some(wanted) => ends_as(alloc, case, host, db, &wanted),
        None => Ok(true),
    }
}

/// Whether what the host has is right after so many replies. Otherwise it is told.
fn is_right(
    alloc: Global,
    case: &Case,
    host: &mut MemHost,
    replies: usize,
    text: &mut String,
) -> Result<bool> {
    let mut told = Told::new(alloc, false);
    play(alloc, host, case.trial.look, &mut told)?;
    if may_be_said(case.trial.rows, replies, &told.text)
        && ends_well(alloc, case, host, &told.text)?
    {
        return Ok(true);
    }
    write!(text, "{replies} replies, and then:\n{}", told.text)?;
    Ok(false)
}

/// Whether a crash now leaves by this pick what is right.
fn is_left_right(
    alloc: Global,
    case: &Case,
    host: &MemHost,
    pick: u64,
    text: &mut String,
) -> Result<bool> {
    let mut left = host.left(pick)?;
    is_right(alloc, case, &mut left, replies_of(host), text)
}

/// Whether it does by each of the picks.
fn are_picks_right(
    alloc: Global,
    case: &Case,
    host: &MemHost,
    picks: u64,
    text: &mut String,
) -> Result<bool> {
    for pick in 0..picks {
        if !is_left_right(alloc, case, host, pick, text)? {
            write!(text, "by pick {pick}\n")?;
            return Ok(false);
        }
    }
    Ok(true)
}

/// Whether the run that was stopped there has ended there, with files of which a crash leaves what is right, and where only that call
/// has failed, with such files.
fn is_host_right(
    alloc: Global,
    case: &Case,
    verdict: Verdict,
    call: u64,
    host: &mut MemHost,
    text: &mut String,
) -> Result<bool> {
    if !has_ended_at(host, case.whole, call) {
        text.push_str("it has gone on, or said something else\n")?;
        return Ok(false);
    }
    if !are_picks_right(alloc, case, host, verdict.picks, text)? {
        return Ok(false);
    }
    match verdict.kind {
        Kind::Stopped => Ok(true),
        Kind::Failing => {
            let replies = replies_of(host);
            is_right(alloc, case, host, replies, text)
        }
    }
}

fn is_call_right(
    alloc: Global,
    case: &Case,
    verdict: Verdict,
    call: u64,
    text: &mut String,
) -> Result<bool> {
    let mut host = host_at(alloc, case, verdict.kind, call)?;
    is_host_right(alloc, case, verdict, call, &mut host, text)
}

/// Whether all is right at each of the calls.
fn are_calls_right(
    alloc: Global,
    case: &Case,
    verdict: Verdict,
    text: &mut String,
) -> Result<bool> {
    let (first, last) = calls_of(alloc, case, verdict)?;
    for call in first..=last {
        if !is_call_right(alloc, case, verdict, call, text)? {
            write!(text, "at call {call}\n")?;
            return Ok(false);
        }
    }
    Ok(true)
}

/// Judges what a line asks, and tells it.
pub fn judge(alloc: Global, case: &Case, line: &str, text: &mut String) -> Result<()> {
    if line.starts_with("ends ") {
        return Ok(());
    }
    let verdict = Verdict::read(line).context("no verdict")?;
    if are_calls_right(alloc, case, verdict, text)? {
        write!(text, "{line}: right\n")?;
    } else {
        write!(text, "{line}: wrong\n")?;
    }
    Ok(())
}
