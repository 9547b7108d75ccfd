ghost use Rattle.std.specs.Prelude.{◌≡◌, ◌<◌, ◌^◌, length, filter, count_by, not, is_some, List, IfOk};
ghost use Rattle.nb_level.specs.declared.head.LevelHead.{LevelHead};
ghost use Rattle.nb_catalog.specs.Lines.{parents_of};
ghost use Rattle.nb_catalog.specs.Plans.{entries_of, plan_of, line_by, is_newer, newest, is_in_line, is_in_lines, places};

use crate::Plan;
use crate::entry::Entry;
use crate::lines::is_in_line_at;
use nb_level::LevelHead;
use std::alloc::{AllocError, Global};

/// The files with their places.
pub(crate) fn entries(alloc: Global, heads: &[LevelHead]) -> Result<Vec<Entry>, AllocError>
    requires { length heads.now < 2 ^ 32 }
    ensures { IfOk result (λ v. v.items ≡ entries_of heads.now) }
{
    let mut entries = Vec::new(alloc);
    for (place, head) in heads.iter().enumerate() {
        entries.push(Entry {
            place: place as u32,
            level: head.level,
            scn: head.scn,
        })?;
    }
    Ok(entries)
}

/// Whether a file has a line.
fn has_line(parents: &[Option<usize>], entry: &Entry) -> bool
    ensures { result ≡ is_some (line_by parents.now entry.now) }
{
    is_in_line_at(parents, entry.level, entry.place as usize, entry.place).is_some()
}

/// The files that have a line: the restore points.
fn with_line(
    alloc: Global,
    parents: &[Option<usize>],
    entries: &[Entry],
) -> Result<Vec<Entry>, AllocError>
    ensures { IfOk result (λ v. v.items ≡ filter (λ e. is_some (line_by parents.now e)) entries.now) }
{
    entries
        .iter()
        .copied()
        .filter(|e| has_line(parents, e))
        .collect(alloc)
}

/// The places of the files that have none.
fn without_line(
    alloc: Global,
    parents: &[Option<usize>],
    entries: &[Entry],
) -> Result<Vec<u32>, AllocError>
    ensures { IfOk result (λ v. v.items ≡ places (filter (λ e. not (is_some (line_by parents.now e))) entries.now)) }
{
    entries
        .iter()
        .copied()
        .filter(|e| !has_line(parents, e))
        .map(|e| e.place)
        .collect(alloc)
}

/// Whether a file comes after the other: by SCN, and then by place.
fn is_newer(one: &Entry, other: &Entry) -> bool
    ensures { result ≡ is_newer one.now other.now }
{
    other.scn < one.scn || one.scn == other.scn && other.place < one.place
}

/// How many of these come after that one.
fn newer_count(entries: &[Entry], than: &Entry) -> usize
    ensures { result ≡ count_by (λ e. is_newer e than.now) entries.now }
{
    entries.iter().filter(|e| is_newer(e, than)).count()
}

/// So many of these, the newest, in their order.
fn newest(alloc: Global, entries: &[Entry], keep: u32) -> Result<Vec<Entry>, AllocError>
    ensures { IfOk result (λ v. v.items ≡ newest keep entries.now) }
{
    entries
        .iter()
        .copied()
        .filter(|e| newer_count(entries, e) < keep as usize)
        .collect(alloc)
}

/// Whether a place is in the line of a file.
fn is_in_line(parents: &[Option<usize>], place: u32, entry: &Entry) -> bool
    ensures { result ≡ is_in_line parents.now place entry.now }
{
    is_in_line_at(parents, entry.level, entry.place as usize, place).unwrap_or(false)
}

/// Whether a file is in the line of one of these.
fn is_in_lines(parents: &[Option<usize>], kept: &[Entry], entry: &Entry) -> bool
    ensures { result ≡ is_in_lines parents.now kept.now entry.now }
{
    kept.iter().any(|e| is_in_line(parents, entry.place, e))
}

/// How many files are in the lines of these.
fn count_in_lines(parents: &[Option<usize>], kept: &[Entry], entries: &[Entry]) -> u32
    requires { length entries.now < 2 ^ 32 }
    ensures { result ≡ count_by (is_in_lines parents.now kept.now) entries.now }
{
    entries
        .iter()
        .filter(|e| is_in_lines(parents, kept, e))
        .count() as u32
}

/// The places of the files that are in the line of none of these.
fn outside_lines(
    alloc: Global,
    parents: &[Option<usize>],
    kept: &[Entry],
    entries: &[Entry],
) -> Result<Vec<u32>, AllocError>
    ensures { IfOk result (λ v. v.items ≡ places (filter (λ e. not (is_in_lines parents.now kept.now e)) entries.now)) }
{
    entries
        .iter()
        .copied()
        .filter(|e| !is_in_lines(parents, kept, e))
        .map(|e| e.place)
        .collect(alloc)
}

/// The plan for files whose parents stand in those places.
pub(crate) fn plan_by(
    alloc: Global,
    parents: &[Option<usize>],
    entries: &[Entry],
    keep: u32,
) -> Result<Plan, AllocError>
    requires { length entries.now < 2 ^ 32 }
    ensures { (heads : List LevelHead) → parents.now ≡ parents_of heads → entries.now ≡ entries_of heads → IfOk result (λ plan. plan ≡ plan_of heads keep) }
{
    let points = with_line(alloc, parents, entries)?;
    let kept = newest(alloc, &points, keep)?;
    let dropped = outside_lines(alloc, parents, &kept, &points)?;
    let orphans = without_line(alloc, parents, entries)?;
    let kept = count_in_lines(parents, &kept, entries);
    Ok(Plan {
        kept,
        dropped,
        orphans,
    })
}
