// The job of the words: what `clap` finds in them, the cell that it chooses, and the names that the cell asks for.
ghost use Rattle.std.specs.Prelude.{◌≡◌, ◌⊎◌, map, string_bytes, Some, None, IfOk, IfErr};
ghost use Rattle.nb_host.specs.declared.faults.Fault.TheVariants.{Memory, Refused};
ghost use Rattle.nb_host.specs.declared.refusals.Refusal.TheVariants.{Usage};
ghost use Rattle.nb_model.specs.Words.{job_of};
ghost use Rattle.nb_words.specs.Read.{IsJobOf};

use crate::{choice, jobs, line};
use clap::ArgMatches;
use nb_host::{Fault, Refusal};
use nb_model::Job;
use std::alloc::Global;

/// The job of what `clap` found.
fn job_found(alloc: Global, found: &ArgMatches<'_>) -> Result<Option<Job>, Fault>
    ensures exact { IfOk result (IsJobOf found.now) }
    ensures only_memory { IfErr result (λ fault. fault ≡ Memory) }
{
    let row = choice::row(&line::counts(found));
    match line::plain_words(found) {
        Some(plain) => jobs::of_cell(alloc, choice::table().at(row, plain.len().min(12)), plain),
        None => jobs::of_cell(alloc, choice::table().at(row, 0), &[]),
    }
}

/// The job that the words of the command line name; the program's own name is not among them.
///
/// Where they name none, the refusal is `Usage`. `clap` takes memory for whatever words, and the names of files to restore
/// from are a list: where that memory runs out the answer is `Memory`, whether or not the words name a job.
pub fn read_job(alloc: Global, words: &[String]) -> Result<Job, Fault>
    ensures job { IfOk result (λ job. job_of (map string_bytes words.now) ≡ Some job) }
    ensures refusal { IfErr result (λ fault. (fault ≡ Memory) ⊎ ((fault ≡ Refused Usage) × (job_of (map string_bytes words.now) ≡ None))) }
{
    match line::read(alloc, words)? {
        Some(found) => match job_found(alloc, &found)? {
            Some(job) => Ok(job),
            None => Err(Fault::Refused(Refusal::Usage)),
        },
        None => Err(Fault::Refused(Refusal::Usage)),
    }
}
