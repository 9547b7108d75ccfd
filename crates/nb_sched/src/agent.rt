ghost use Rattle.std.specs.Prelude.{◌≡◌, ◌≢◌, ◌↔◌, ℕ, Result, Ok, IsTrue, OnOk};
ghost use Rattle.nb_host.specs.declared.faults.RunError.{RunError};
ghost use Rattle.nb_sched.specs.Turns.{IsDone, IsLower};

use nb_host::RunError;

/// One session of several that take turns, on a host and on a value that they share.
///
/// `fits` says what it needs of the two, and `step` what a turn does. A turn is asked for only where the agent has not finished and
/// fits. It makes `step`, whatever it answers; where it answers Ok, this agent and each of another session that fitted fit again.
pub trait Agent<H, C> {
    /// The turns that it has still to make: none, exactly where it has finished. Each turn lowers them, the first number first.
    ghost left: { Self → ℕ × ℕ };

    /// The number of its session.
    ghost session: { Self → ℕ };

    /// What it needs of the host and of the shared value.
    ghost fits: { Self → H → C → Type 0 };

    /// What a turn does: the agent, the host and the shared value before it, its answer, and the three after it.
    ghost step: { Self → H → C → Result (Unit {0}) RunError → Self → H → C → Type 0 };

    /// Makes one turn. After an error nothing more is asked of any agent.
    fn turn(&mut self, host: &mut H, shared: &mut C) -> Result<(), RunError>
        requires unfinished { ¬ IsDone (left self.old) }
        requires fits { fits self.old host.old shared.old }
        ensures step { step self.old host.old shared.old result self.new host.new shared.new }
        ensures fits { OnOk result (fits self.new host.new shared.new) }
        ensures falls { OnOk result (IsLower (left self.new) (left self.old)) }
        ensures session { session self.new ≡ session self.old };

    /// Whether it has made all its turns.
    fn finished(&self) -> bool
        ensures { IsTrue result ↔ IsDone (left self.now) };

    /// The turns that it has still to make.
    fn left(&self) -> (u64, u64)
        ensures { result ≡ left self.now };

    /// The number of its session.
    fn session(&self) -> u32
        ensures { result ≡ session self.now };

    /// A turn that answers Ok leaves each agent of another session fitting that fitted before.
    ghost keeps_others: { (mover other : Self) (host : H) (shared : C) (moved : Self) (host' : H) (shared' : C)
        → session other ≢ session mover → fits mover host shared → fits other host shared
        → step mover host shared (Ok tt) moved host' shared' → fits other host' shared' };
}
