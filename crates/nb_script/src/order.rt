ghost use Rattle.std.specs.Prelude.{◌≡◌, option_map, IfOk, IfErr};
ghost use Rattle.nb_host.specs.declared.faults.Fault.TheVariants.{Memory};
ghost use Rattle.nb_model.specs.Seeds.{stepped, session_of, seeded};
ghost use Rattle.nb_script.specs.Order.{spaced_session, sessions_at, seed_at, order_at};

use crate::words::{after, number, within};
use nb_host::Fault;
use std::alloc::Global;

/// How many sessions the order of turns names at most, and how many a seed means.
const MOST_TURNS: u32 = 4096;

/// A session with a space before it, and the rest.
#[tactic(auto, unfolding(crate::specs::Order::spaced_session))]
fn spaced_session(bytes: &[u8]) -> Option<(u32, &[u8])>
    ensures { option_map (λ x. (x.0, x.1.now)) result ≡ spaced_session bytes.now }
{
    let rest = after(bytes, b" ")?;
    within(rest, 1, 16)
}

/// Sessions to the end of the line: at least one, and at most `most`.
fn sessions(alloc: Global, most: u32, bytes: &[u8]) -> Result<Option<Vec<u32>>, Fault>
    ensures ok { IfOk result (λ read. option_map (λ sessions. sessions.items) read ≡ sessions_at most bytes.now) }
    ensures only_memory { IfErr result (λ fault. fault ≡ Memory) }
{
    let mut sessions = Vec::new(alloc);
    let mut rest = bytes;
    for _ in 0..most {
        let Some((session, after)) = spaced_session(rest) else {
            return Ok(None);
        };
        sessions.push(session)?;
        if after.is_empty() {
            return Ok(Some(sessions));
        }
        rest = after;
    }
    Ok(None)
}

#[tactic(auto, unfolding(nb_model::specs::Seeds::stepped))]
fn stepped(seed: u64) -> u64
    ensures { result ≡ stepped seed }
{
    seed.wrapping_mul(6364136223846793005)
        .wrapping_add(1442695040888963407)
}

#[tactic(auto, unfolding(nb_model::specs::Seeds::session_of))]
fn session_of(seed: u64) -> u32
    ensures { result ≡ session_of seed }
{
    ((seed >> 33) % 16) as u32 + 1
}

/// The sessions that a seed means, `count` of them.
fn seeded(alloc: Global, count: u32, seed: u64) -> Result<Vec<u32>, Fault>
    ensures ok { IfOk result (λ sessions. sessions.items ≡ seeded count seed) }
    ensures only_memory { IfErr result (λ fault. fault ≡ Memory) }
{
    let mut sessions = Vec::new(alloc);
    let mut state = seed;
    for _ in 0..count {
        state = stepped(state);
        sessions.push(session_of(state))?;
    }
    Ok(sessions)
}

/// `U` at the end of the line.
#[tactic(auto, unfolding(crate::specs::Order::seed_at))]
fn seed(bytes: &[u8]) -> Option<u64>
    ensures { result ≡ seed_at bytes.now }
{
    let (seed, rest) = number(bytes)?;
    if rest.is_empty() { Some(seed) } else { None }
}

/// The order of turns that a line gives.
#[tactic(auto, unfolding(crate::specs::Order::order_at))]
pub(crate) fn order(alloc: Global, line: &[u8]) -> Result<Option<Vec<u32>>, Fault>
    ensures ok { IfOk result (λ read. option_map (λ sessions. sessions.items) read ≡ order_at line.now) }
    ensures only_memory { IfErr result (λ fault. fault ≡ Memory) }
{
    if let Some(rest) = after(line, b"schedule") {
        return sessions(alloc, MOST_TURNS, rest);
    }
    let Some(rest) = after(line, b"seed ") else {
        return Ok(None);
    };
    let Some(seed) = seed(rest) else {
        return Ok(None);
    };
    let sessions = seeded(alloc, MOST_TURNS, seed)?;
    Ok(Some(sessions))
}
