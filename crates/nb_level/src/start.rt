ghost use Rattle.std.specs.Prelude.{◌≡◌, ◌⊎◌, ◌≤◌, ◌+◌, length, IfOk, IsTrue, MatchOption};
ghost use Rattle.nb_fields.specs.Bytes.{number_in};
ghost use Rattle.nb_fields.specs.Places.{is_page_size};
ghost use Rattle.nb_host.specs.Calls.{IsStill};
ghost use Rattle.nb_host.specs.Files.{bytes_of};
ghost use Rattle.nb_host.specs.Moments.{Passes};
ghost use Rattle.nb_model.specs.Levels.{begins_level};
ghost use Rattle.nb_page.specs.Quiet.{Quiet};
ghost use Rattle.nb_host.specs.Causes.{CountsDevice};
ghost use Rattle.nb_level.specs.Answers.{StartSays, OpenSays, ReadsOnce};
ghost use Rattle.nb_level.specs.Reading.{StandsFirst, head_fault};

use crate::LevelReader;
use nb_fields::layouts::level;
use nb_fields::{is_page_size, number_at};
use nb_host::{Fault, Host, Name, Refusal};
use std::alloc::Global;

/// Whether a file that begins with these bytes, or has no more, begins as a level file does.
pub fn begins_level(bytes: &[u8]) -> bool
    ensures { result ≡ begins_level bytes.now }
{
    if bytes.len() < 4 {
        return false;
    }
    &bytes[..4] == b"NBAK".as_slice()
}

/// The first place that is broken in a head, where a file begins with these bytes.
#[tactic(auto, unfolding(crate::specs::Reading::head_fault, nb_model::specs::Levels::first_fault))]
fn head_fault(bytes: &[u8]) -> Option<u64>
    ensures place { result ≡ head_fault bytes.now }
    ensures form { MatchOption result ((52 ≤ length bytes.now) × ((number_in 4 2 bytes.now ≡ 101) ⊎ (number_in 4 2 bytes.now ≡ 102)) × IsTrue (is_page_size (number_in 40 4 bytes.now))) (λ _. Unit {0}) }
{
    if !begins_level(bytes) {
        return Some(0);
    }
    if bytes.len() < level::LENGTH {
        return Some(bytes.len() as u64);
    }
    let version = number_at(bytes, 4, 2);
    if !(version == 101 || version == 102) {
        return Some(4);
    }
    let level = number_at(bytes, 6, 2);
    if !(1 <= level && level <= 9) {
        return Some(6);
    }
    if !is_page_size(number_at(bytes, 40, 4)) {
        return Some(40);
    }
    let scn = number_at(bytes, 44, 4);
    if !(number_at(bytes, 48, 4) < scn) {
        return Some(44);
    }
    None
}

/// Begins to read a file that is there.
fn open<H: Host>(alloc: Global, host: &mut H, name: &Name) -> Result<LevelReader, Fault>
    ensures answer { OpenSays H.tells ((H.world host.old).files name.now) name.now result }
    ensures first { IsTrue H.tells → IfOk result (StandsFirst (bytes_of ((H.world host.old).files name.now))) }
    ensures files { IsStill (H.world host.old) (H.world host.new) }
    ensures log { ReadsOnce H.tells (H.world host.old) (H.world host.new) }
    ensures time { Passes (H.world host.old) (H.world host.new) }
    ensures cause { CountsDevice result (H.faults host.old) (H.faults host.new) }
{
    let mut first = [0; level::LENGTH];
    let got = host.read_at(name, 0, &mut first)?;
    match head_fault(&first[..got]) {
        Some(at) => Err(Fault::Refused(Refusal::BadLevel {
            name: name.copied(),
            at,
        })),
        None => {
            let reader = LevelReader::begun(alloc, name, &first)?;
            Ok(reader)
        }
    }
}

impl LevelReader {
    /// Begins to read a level file. It takes the memory for a page.
    ///
    /// The refusal is `NoFile`, where there is none, or `BadLevel`, with the first place that is broken, where that
    /// stands in the head.
    pub fn start<H: Host>(alloc: Global, host: &mut H, name: &Name) -> Result<LevelReader, Fault>
        ensures answer { StartSays H.tells ((H.world host.old).files name.now) name.now result }
        ensures first { IsTrue H.tells → IfOk result (StandsFirst (bytes_of ((H.world host.old).files name.now))) }
        ensures quiet { Quiet (H.world host.old) (H.world host.new) }
        ensures reads { IsTrue H.tells → (H.world host.new).reads ≤ (H.world host.old).reads + 1 }
        ensures cause { CountsDevice result (H.faults host.old) (H.faults host.new) }
    {
        match host.size(name)? {
            Some(_) => open(alloc, host, name),
            None => Err(Fault::Refused(Refusal::NoFile {
                name: name.copied(),
            })),
        }
    }
}
