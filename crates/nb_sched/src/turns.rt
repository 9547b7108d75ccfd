ghost use Rattle.std.specs.Prelude.{◌≤◌, ◌<◌, ◌∷◌, ◌++◌, [], ℕ, length, OnOk};
ghost use Rattle.nb_model.specs.Run.{rounds};
ghost use Rattle.nb_sched.specs.Turns.{kind, scene, IsReady, AllDone, Rests, TakesTurns};

use crate::Agent;
use nb_host::RunError;

/// The sessions in rising order: one round.
const ROUND: [u32; 16] = [1, 2, 3, 4, 5, 6, 7, 8, 9, 10, 11, 12, 13, 14, 15, 16];

/// One turn of the agent of this session. Where there is none, or it has finished, nothing is done.
fn take_turn<H, C, A: Agent<H, C>>(
    agents: &mut [A],
    host: &mut H,
    shared: &mut C,
    session: u32,
) -> Result<(), RunError>
    requires { IsReady (kind A.left A.session A.fits A.step) (scene agents.old host.old shared.old) }
    ensures { TakesTurns (kind A.left A.session A.fits A.step) (session ∷ []) (scene agents.old host.old shared.old) result
        (scene agents.new host.new shared.new) }
{
    let Some(place) = (session as usize).checked_sub(1) else {
        return Ok(());
    };
    if place >= agents.len() || agents[place].finished() {
        return Ok(());
    }
    agents[place].turn(host, shared)
}

/// One turn for each number of an order.
fn take_order<H, C, A: Agent<H, C>>(
    agents: &mut [A],
    host: &mut H,
    shared: &mut C,
    order: &[u32],
) -> Result<(), RunError>
    requires { IsReady (kind A.left A.session A.fits A.step) (scene agents.old host.old shared.old) }
    ensures { TakesTurns (kind A.left A.session A.fits A.step) order.now (scene agents.old host.old shared.old) result
        (scene agents.new host.new shared.new) }
{
    for session in order {
        take_turn(agents, host, shared, *session)?;
    }
    Ok(())
}

/// How many of the first `count` agents there are up to the last that has not finished.
fn unfinished<H, C, A: Agent<H, C>>(agents: &[A], count: usize) -> usize
    requires within { count ≤ length agents.now }
    ensures fewer { result ≤ count }
    ensures behind { (session : ℕ) → result < session → session ≤ count → Rests A.left agents.now session }
    ensures last { 0 < result → ¬ Rests A.left agents.now result }
{
    let mut count = count;
    while count > 0 && agents[count - 1].finished() {
        count -= 1;
    }
    count
}

/// Takes turns, at most 16 agents, of which the one in place i (from 0) is session i + 1. Each number of the schedule gives its
/// session one turn; a number without an agent, or whose agent has finished, does nothing. Then those that have not finished take one
/// turn each in rising order, again and again, until all have finished.
///
/// An error is that of a turn, and nothing is done after it.
pub fn take_turns<H, C, A: Agent<H, C>>(
    agents: &mut [A],
    host: &mut H,
    shared: &mut C,
    schedule: &[u32],
) -> Result<(), RunError>
    requires few { length agents.old ≤ 16 }
    requires ready { IsReady (kind A.left A.session A.fits A.step) (scene agents.old host.old shared.old) }
    ensures turns { (how_often : ℕ) × TakesTurns (kind A.left A.session A.fits A.step) (schedule.now ++ rounds how_often)
        (scene agents.old host.old shared.old) result (scene agents.new host.new shared.new) }
    ensures finished { OnOk result (AllDone A.left agents.new) }
{
    take_order(agents, host, shared, schedule)?;
    // One that has finished has no turn any more, so those after the last that has not are asked no further.
    let mut count = unfinished(agents, agents.len());
    while count > 0 {
        take_order(agents, host, shared, &ROUND[..count])?;
        count = unfinished(agents, count);
    }
    Ok(())
}
