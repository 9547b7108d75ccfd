// Agents that take turns, and one that fails.
ghost use Rattle.std.specs.Prelude.{◌≡◌, ◌≤◌, ◌++◌, [], ℕ, Some, length};
ghost use Rattle.nb_model.specs.Run.{rounds};
ghost use Rattle.nb_sched.specs.Turns.{agent_of};
ghost use Rattle.nb_sched.specs.Within.{IsWithin};

use nb_host::RunError;
use nb_sched::{Agent, take_turns};
use std::alloc::Global;
use std::test::Fail;

/// A host that fails once so much was said.
#[derive(Drop)]
struct Voice {
    most: usize,
}

/// Says the number of its session in each turn.
#[derive(Drop)]
struct Speaker {
    session: u32,
    turns: u64,
}

impl Agent<Voice, Vec<u32>> for Speaker {
    ghost use Rattle.std.specs.Prelude.{◌≡◌, ◌≤◌, ◌++◌, ◌∷◌, [], length, OnOk, OnErr};

    ghost left = { λ speaker. (0, speaker.turns) };

    ghost session = { λ speaker. speaker.session };

    ghost fits = { λ speaker voice said. length said.items ≤ voice.most };

    ghost step = { λ speaker voice said answer after voice' said'. (after.session ≡ speaker.session) × (voice' ≡ voice)
        × OnOk answer ((said'.items ≡ said.items ++ (speaker.session ∷ [])) × (length said'.items ≤ voice'.most))
        × OnErr answer ((said'.items ≡ said.items) × (after.turns ≡ speaker.turns)) };

    ghost keeps_others = { λ mover other voice said moved voice' said' apart fits also made. made.2.1 };

    fn turn(&mut self, host: &mut Voice, shared: &mut Vec<u32>) -> Result<(), RunError> {
        if shared.len() >= host.most {
            return Err(RunError::Device);
        }
        shared.push(self.session)?;
        self.turns -= 1;
        Ok(())
    }

    fn finished(&self) -> bool {
        self.turns == 0
    }

    fn left(&self) -> (u64, u64) {
        (0, self.turns)
    }

    fn session(&self) -> u32 {
        self.session
    }
}

/// Lets all speak. Whatever it answers, what was said are numbers of the order, as they stand there.
fn speak(
    speakers: &mut [Speaker],
    voice: &mut Voice,
    said: &mut Vec<u32>,
    schedule: &[u32],
) -> Result<(), RunError>
    requires few { length speakers.old ≤ 16 }
    requires placed { (session : ℕ) (speaker : _) → agent_of speakers.old session ≡ Some speaker → speaker.session ≡ session }
    requires silent { said.old.items ≡ [] }
    ensures order { (how_often : ℕ) × IsWithin said.new.items (schedule.now ++ rounds how_often) }
{
    take_turns(speakers, voice, said, schedule)
}

fn with_turns(session: u32, turns: u64) -> Speaker
    ensures { result.session ≡ session }
{
    Speaker { session, turns }
}

/// How the turns of three speakers end, what was said in them, and what each of them has left.
fn three_speak(
    alloc: Global,
    most: usize,
    schedule: &[u32],
) -> (Result<(), RunError>, Vec<u32>, [(u64, u64); 3]) {
    let mut speakers = [with_turns(1, 3), with_turns(2, 2), with_turns(3, 3)];
    let mut said = Vec::new(alloc);
    let answer = speak(&mut speakers, &mut Voice { most }, &mut said, schedule);
    let left = [speakers[0].left(), speakers[1].left(), speakers[2].left()];
    (answer, said, left)
}

#[test]
fn turns_by_schedule_and_then_round_robin(rt: HostRuntime) -> Result<(), Fail> {
    let (answer, said, left) = three_speak(rt.alloc(), 100, &[2, 7, 0, 2, 2, 1, 2]);
    assert_eq!(rt;
        (answer.is_ok(), said.as_slice(), left),
        (true, [2, 2, 1, 1, 3, 1, 3, 3].as_slice(), [(0, 0); 3])
    );
    Ok(())
}

#[test]
fn an_error_ends_all(rt: HostRuntime) -> Result<(), Fail> {
    let (answer, said, left) = three_speak(rt.alloc(), 3, &[3, 3]);
    assert_eq!(rt;
        (
            matches!(answer, Err(RunError::Device)),
            said.as_slice(),
            left
        ),
        (true, [3, 3, 1].as_slice(), [(0, 2), (0, 2), (0, 1)])
    );
    Ok(())
}
