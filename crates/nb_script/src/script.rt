ghost use Rattle.std.specs.Prelude.{◌≡◌, ◌≤◌, length, OnOk, OnErr, IfErr};
ghost use Rattle.nb_host.specs.declared.faults.Fault.TheVariants.{Memory};
ghost use Rattle.nb_script.specs.Scripts.{Plan, started, with_statement, statements_of};

use nb_host::Fault;
use nb_model::Statement;
use std::alloc::Global;
use std::marker::Model;

/// A script: the statement that stands first, the order of turns, and the further statements of the
/// sessions 1 to 16.
///
/// Contracts see it as a `Plan`.
#[derive(Drop)]
pub struct Script {
    first_session: u32,
    first: Statement,
    schedule: Vec<u32>,
    sessions: [Vec<Statement>; 16],
}

impl Model for Script {
    ghost use Rattle.std.specs.Prelude.{◌≡◌, ◌≤◌, length, map};
    ghost use Rattle.nb_script.specs.Scripts.{Plan};

    ghost Value = { Plan };

    ghost view = { λ s. record { first_session = s.first_session; first = s.first; schedule = s.schedule.items; sessions = map (λ v. v.items) s.sessions } };

    ghost invariant = { λ s. (1 ≤ s.first_session) × (s.first_session ≤ 16) × (length s.sessions ≡ 16) };
}

impl Script {
    /// A script of one statement, which session 1 to 16 asks, with an order of turns, empty where there is none. It takes no memory.
    pub fn new(alloc: Global, session: u32, first: Statement, schedule: Vec<u32>) -> Script
        requires low { 1 ≤ session }
        requires high { session ≤ 16 }
        ensures { result ≡ started session first schedule.items }
    {
        let none = || Vec::new(alloc);
        Script {
            first_session: session,
            first,
            schedule,
            sessions: [
                none(),
                none(),
                none(),
                none(),
                none(),
                none(),
                none(),
                none(),
                none(),
                none(),
                none(),
                none(),
                none(),
                none(),
                none(),
                none(),
            ],
        }
    }

    /// One statement more, the last of its session, 1 to 16. Where memory runs out the script stays as it is.
    pub fn add(&mut self, session: u32, statement: Statement) -> Result<(), Fault>
        requires low { 1 ≤ session }
        requires high { session ≤ 16 }
        ensures ok { OnOk result (self.new ≡ with_statement self.old (session, statement)) }
        ensures same { OnErr result (self.new ≡ self.old) }
        ensures only_memory { IfErr result (λ fault. fault ≡ Memory) }
    {
        self.sessions[session as usize - 1].push(statement)?;
        Ok(())
    }

    /// The statement that stands first: it creates or opens the database.
    pub fn first(&self) -> &Statement
        ensures { result.now ≡ self.now.first }
    {
        &self.first
    }

    /// The session of the first statement, 1 to 16.
    pub fn first_session(&self) -> u32
        ensures value { result ≡ self.now.first_session }
        ensures low { 1 ≤ result }
        ensures high { result ≤ 16 }
    {
        self.first_session
    }

    /// The sessions that have the first turns, in their order; none where the script doesn't say.
    pub fn schedule(&self) -> &[u32]
        ensures { result.now ≡ self.now.schedule }
    {
        self.schedule.as_slice()
    }

    /// How many sessions there are: 16, and each has its statements.
    pub fn session_count(&self) -> u32
        ensures all { result ≡ length self.now.sessions }
        ensures sixteen { result ≡ 16 }
    {
        self.sessions.as_slice().len() as u32
    }

    /// The further statements of a session, 1 to 16, in their order. The first statement isn't among them.
    pub fn statements(&self, session: u32) -> &[Statement]
        requires low { 1 ≤ session }
        requires high { session ≤ 16 }
        ensures { result.now ≡ statements_of self.now session }
    {
        self.sessions[session as usize - 1].as_slice()
    }
}
