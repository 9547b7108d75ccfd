ghost use Rattle.std.specs.Prelude.{◌≡◌, ◌≤◌, ◌<◌, nat_lt, IfOk, IfErr, IfSome, None, if◌then◌else◌};
ghost use Rattle.nb_host.specs.declared.faults.Fault.TheVariants.{Memory, Refused};
ghost use Rattle.nb_host.specs.declared.refusals.Refusal.TheVariants.{BadScript};
ghost use Rattle.nb_script.specs.Asked.{IsAskable, IsSpelled};
ghost use Rattle.nb_script.specs.Statements.{statement_at};
ghost use Rattle.nb_script.specs.Lines.{left};
ghost use Rattle.nb_script.specs.Scripts.{IsAnswer, script_of, order_in, with_lines};

use crate::Script;
use crate::first_line::first_statement;
use crate::lines::Lines;
use crate::order::order;
use crate::statements::statement;
use nb_host::{Fault, Refusal};
use nb_model::Statement;
use std::alloc::Global;

/// How many bytes a script has at most.
pub const MOST_BYTES: usize = 1048576;

/// How many statements a script has at most, the first included.
pub const MOST_STATEMENTS: u32 = 10000;

fn bad(line: u32) -> Fault
    ensures { result ≡ Refused (BadScript line) }
{
    Fault::Refused(Refusal::BadScript { line })
}

/// The order of turns that the next line gives, none where it gives none, and the lines after.
#[tactic(auto, unfolding(crate::specs::Scripts::order_in))]
fn order_line<'a>(alloc: Global, lines: Lines<'a>) -> Result<(Vec<u32>, Lines<'a>), Fault>
    ensures ok { IfOk result (λ x. (x.0.items, left x.1.passed x.1.rest.now) ≡ order_in (left lines.entry.passed lines.entry.rest.now)) }
    ensures only_memory { IfErr result (λ fault. fault ≡ Memory) }
{
    let mut ahead = lines;
    let Some(line) = ahead.next() else {
        return Ok((Vec::new(alloc), lines));
    };
    match order(alloc, line)? {
        Some(schedule) => Ok((schedule, ahead)),
        None => Ok((Vec::new(alloc), lines)),
    }
}

/// The statement of a line, where `taken` statements stand before it.
fn next_statement(alloc: Global, taken: u32, line: &[u8]) -> Result<Option<(u32, Statement)>, Fault>
    ensures ok { IfOk result (λ read. read ≡ (if nat_lt taken 10000 then statement_at line.now else None)) }
    ensures session { IfOk result (λ read. IfSome read (λ x. (1 ≤ x.0) × (x.0 ≤ 16))) }
    ensures few { IfOk result (λ read. IfSome read (λ _. taken < 10000)) }
    ensures only_memory { IfErr result (λ fault. fault ≡ Memory) }
{
    if taken < MOST_STATEMENTS {
        statement(alloc, line)
    } else {
        Ok(None)
    }
}

/// The script with the statements of these lines.
fn add_lines(alloc: Global, mut script: Script, mut lines: Lines<'_>) -> Result<Script, Fault>
    ensures { IsAnswer result (with_lines 1 script (left lines.entry.passed lines.entry.rest.now)) }
{
    let mut taken: u32 = 1;
    while let Some(line) = lines.next() {
        let Some((session, statement)) = next_statement(alloc, taken, line)? else {
            return Err(bad(lines.passed()));
        };
        script.add(session, statement)?;
        taken += 1;
    }
    Ok(script)
}

/// The script that the bytes spell.
///
/// `ScriptLong` where there are more than 1,048,576 bytes, and `BadScript` with the first line, from 1,
/// that breaks the form otherwise: the number of lines plus 1 where there is no first statement.
/// What the script asks, the program can do today.
#[tactic(auto, unfolding(crate::specs::Scripts::script_of, crate::specs::Scripts::of_lines, crate::specs::Scripts::with_order))]
pub fn parse(alloc: Global, bytes: &[u8]) -> Result<Script, Fault>
    ensures exact { IsAnswer result (script_of bytes.now) }
    ensures spelled { IfOk result IsSpelled }
    ensures askable { IfOk result IsAskable }
{
    if bytes.len() > MOST_BYTES {
        let bytes = bytes.len() as u64;
        return Err(Fault::Refused(Refusal::ScriptLong { bytes }));
    }
    let mut lines = Lines::new(bytes);
    let Some(line) = lines.next() else {
        return Err(bad(lines.passed() + 1));
    };
    let Some((session, first)) = first_statement(line) else {
        return Err(bad(lines.passed()));
    };
    let (schedule, lines) = order_line(alloc, lines)?;
    add_lines(alloc, Script::new(alloc, session, first, schedule), lines)
}
