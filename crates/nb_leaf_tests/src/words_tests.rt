// Words that no run tells apart: a job that isn't done today from none, and an empty word from no word.
use nb_host::{Fault, Refusal};
use nb_model::{Deed, Job};
use nb_words::read_job;
use std::alloc::{AllocError, Global};
use std::test::Fail;

/// Words one space apart.
const LINES: [&str; 12] = [
    "-IR c.db a.1",
    "-R c.db -I a.1",
    "-IR c.db a.1 a.2",
    "-I c.db a.1",
    "",
    "run ",
    "fold f.1 a.1 a.2",
    "fold f.1 a.1",
    "fold f.1 a b c d e f g h i",
    "plan 4294967295 l",
    "plan 4294967296 l",
    "gen 4294967296 s",
];

fn named(answer: &Result<Job, Fault>) -> &'static str {
    match answer {
        Ok(
            Job::Turn {
                deed: Deed::Apply { .. },
            },
        ) => "apply",
        Ok(
            Job::Turn {
                deed: Deed::Fold { .. },
            },
        ) => "fold",
        Ok(Job::Plan { .. }) => "plan",
        Ok(Job::Ship { .. }) => "ship",
        Ok(Job::Gen { .. }) => "gen",
        Err(Fault::Refused(Refusal::Usage)) => "usage",
        _ => "another answer",
    }
}

fn words_of(alloc: Global, line: &str) -> Result<Vec<String>, AllocError> {
    let mut words = Vec::new(alloc);
    for word in line.split(' ') {
        words.push(String::from_str(alloc, word)?)?;
    }
    Ok(words)
}

/// The job that the words of a line name.
fn job_of(alloc: Global, line: &str) -> Result<&'static str, AllocError> {
    let words = words_of(alloc, line)?;
    Ok(named(&read_job(alloc, &words)))
}

/// The jobs of all lines, one after another.
fn jobs(alloc: Global) -> Result<Vec<&'static str>, AllocError> {
    let mut jobs = Vec::new(alloc);
    for line in LINES {
        jobs.push(job_of(alloc, line)?)?;
    }
    Ok(jobs)
}

#[test]
fn words_name_their_jobs(rt: HostRuntime) -> Result<(), Fail> {
    assert_eq!(rt;
        jobs(rt.alloc())?.as_slice(),
        [
            "apply", "apply", "usage", "usage", "usage", "usage", "fold", "usage", "fold", "plan",
            "usage", "gen",
        ]
        .as_slice()
    );
    Ok(())
}
