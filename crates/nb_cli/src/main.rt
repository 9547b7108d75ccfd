//! The program: the words of the command line, real files, and the exit status.
//!
//! It rests on `nb_top`, whose `run_read` does what words ask, on `nb_file` for the outside, and on `nb_beside` for what is done beside a run: before it
//! the host is told which database the run changes and how long locks are waited for; after it the standard error has which word is wrong, which
//! line of a script, what to do about a refusal, or what stands where the run ended early. On the standard output it says nothing itself. `serve` is
//! the whole way from the arguments to the exit status, over any outside.
#![tactic(auto)]

ghost use Rattle.std.specs.Prelude.{◌≡◌, ◌≢◌, None, IsErr, IsTrue, map, string_bytes, IfOk, IfErr};
ghost use Rattle.std.specs.Process.{exit_status};
ghost use Rattle.std.specs.Vec.Iter.{into_iter_items};
ghost use Rattle.std.specs.IoError.{error_kind};
ghost use Rattle.nb_host.specs.Causes.{Rose};
ghost use Rattle.nb_model.specs.Words.{job_of};
ghost use Rattle.nb_ended.specs.Numbers.{number_of};
ghost use Rattle.nb_top.specs.Requests.{Asked, IsAskedBy, IsReadJob, NamesNone};
ghost use Rattle.nb_top.specs.Dangers.{IsDanger};
ghost use Rattle.nb_top.specs.Shown.{IsShown};
ghost use Rattle.nb_cli.specs.Ended.{AreWordsOf, BeginsRun, EndsRun, ExitsAs, ExitsOn, IsAskedIn, IsAskedOf, IsReadOf, IsWithoutMemory, listed, texts_of};

use nb_beside::{Before, Beside, End};
use nb_ended::{Broken, Status};
use nb_file::FileHost;
use nb_host::{Fault, Refusal};
use nb_model::{Job, PageList};
use nb_top::run_read;
use nb_words::read_job;
use std::alloc::Global;
use std::env::{self, Args};
use std::io::{self, ErrorKind, IsTerminal};
use std::process::ExitCode;

/// The words among the arguments: all but the first, which is the program's own name.
fn words_of(alloc: Global, args: io::Result<Args>) -> io::Result<Vec<String>>
    ensures { AreWordsOf (listed into_iter_items args) result }
{
    let mut args = match args {
        Ok(args) => args,
        Err(error) => return Err(error),
    };
    let _program = args.next();
    let mut words = Vec::new(alloc);
    while let Some(word) = args.next() {
        if words.push(word).is_err() {
            return Err(io::Error::from(ErrorKind::OutOfMemory));
        }
    }
    Ok(words)
}

/// The job that the words name: `Usage` where they name none, as where one is no text, and `Memory` where that was too short to read them.
fn job_named(alloc: Global, words: &io::Result<Vec<String>>) -> Result<Job, Fault>
    ensures { IsReadOf words.now result }
{
    match words {
        Ok(words) => read_job(alloc, words.as_slice()),
        Err(error) => if error.kind() == ErrorKind::OutOfMemory {
            Err(Fault::Memory)
        } else {
            Err(Fault::Refused(Refusal::Usage))
        },
    }
}

/// That memory was too short for the job, where words name one.
fn without_memory(job: Result<Job, Fault>) -> Result<Job, Fault>
    ensures { IsWithoutMemory job result }
{
    if job.is_ok() { Err(Fault::Memory) } else { job }
}

/// Does the job, and then gives the system what still waits to be written. Where that can't be written the answer is Device. A line of a script
/// that breaks its form is `broken` after it. Of a database that is checked, what is in danger is `danger`.
fn run_out<H: Beside>(
    alloc: Global,
    job: &Result<Job, Fault>,
    host: &mut H,
    broken: &mut Option<Broken>,
    danger: &mut Option<PageList>,
) -> Status
    requires read { IsReadJob job.now }
    requires none { broken.old ≡ None }
    ensures ends { (asked : Asked) → IsAskedBy job.now (H.world host.old).files asked → EndsRun H.tells H.world result host.old host.new asked }
    ensures usage { result ≡ Status.Usage → NamesNone job.now }
    ensures no_job { IsErr job.now → result ≢ Status.Done × result ≢ Status.Refused }
    ensures written { result ≢ Status.Device → result ≢ Status.Usage → H.waiting host.new ≡ None }
    ensures device { result ≡ Status.Device → Rose (H.faults host.old) (H.faults host.new) }
    ensures no_device { result ≢ Status.Device → H.faults host.new ≡ H.faults host.old }
    ensures shown { (asked : Asked) → IsTrue H.tells → IsAskedBy job.now (H.world host.old).files asked → IsShown result broken.new asked }
    ensures danger { IsTrue H.tells → IsDanger result danger.new (H.world host.old).files job.now }
{
    let status = run_read(alloc, job, host, broken, danger);
    match status {
        Status::Usage | Status::Device => status,
        Status::Done | Status::Refused | Status::Memory => match host.write_rest() {
            Ok(()) => status,
            Err(_) => Status::Device,
        },
    }
}

/// The exit status of a run that ended so.
fn exit_code(status: Status) -> ExitCode
    ensures { exit_status result ≡ number_of status }
{
    ExitCode::from(status as u8)
}

/// Prepares the host for the job that the words name. Where memory is too short for that, none is to be done.
fn prepared<H: Beside>(
    alloc: Global,
    words: &io::Result<Vec<String>>,
    host: &mut H,
    is_terminal: bool,
) -> (Result<Job, Fault>, Before)
    ensures read { IsReadOf words.now result.0 }
    ensures begins { BeginsRun H.tells H.world H.alone words.now result.0 result.1.script host.old host.new }
    ensures waiting { H.waiting host.new ≡ H.waiting host.old }
    ensures faults { H.faults host.new ≡ H.faults host.old }
{
    let job = job_named(alloc, words);
    match host.prepare(alloc, &job, is_terminal) {
        Ok(before) => (job, before),
        Err(_) => (without_memory(job), Before::unknown()),
    }
}

/// Does what these words ask, and says on the standard error what there is to say of it. Answers the exit status: the number of the run's status, or
/// 3 where what still waited after the run couldn't be written.
fn serve_words<H: Beside>(
    alloc: Global,
    words: &io::Result<Vec<String>>,
    host: &mut H,
    is_terminal: bool,
) -> ExitCode
    // Words that were read are those of the run. A word that is no text names no job, and want of memory leaves what they ask for unknown.
    ensures ends { (asked : Asked) → IsAskedOf words.now (H.world host.old).files asked → ExitsAs H.tells H.world H.alone H.told words.now (exit_status result) host.old host.new asked }
    ensures usage { exit_status result ≡ 2 → IfOk words.now (λ words. job_of (map string_bytes words.items) ≡ None) }
    ensures no_job { IfOk words.now (λ words. job_of (map string_bytes words.items) ≡ None → exit_status result ≢ 0 × exit_status result ≢ 1) }
    ensures no_text { IfErr words.now (λ error. error_kind error ≢ ErrorKind.OutOfMemory → exit_status result ≢ 0 × exit_status result ≢ 1) }
    ensures memory { IfErr words.now (λ error. error_kind error ≡ ErrorKind.OutOfMemory → exit_status result ≢ 0 × exit_status result ≢ 1 × exit_status result ≢ 2) }
    ensures written { exit_status result ≢ 3 → exit_status result ≢ 2 → H.waiting host.new ≡ None }
    ensures device { exit_status result ≡ 3 → Rose (H.faults host.old) (H.faults host.new) }
    ensures no_device { exit_status result ≢ 3 → H.faults host.new ≡ H.faults host.old }
{
    let (job, before) = prepared(alloc, words, host, is_terminal);
    let mut broken = None;
    let mut danger = None;
    let status = run_out(alloc, &job, host, &mut broken, &mut danger);
    let end = End {
        status,
        before,
        broken,
        danger,
    };
    host.tell(alloc, words, &job, &end);
    exit_code(status)
}

/// Does what the arguments of the program ask, and says on the standard error what there is to say of it. Answers the exit status, as `serve_words`.
fn serve<H: Beside>(
    alloc: Global,
    args: io::Result<Args>,
    host: &mut H,
    is_terminal: bool,
) -> ExitCode
    // Each word counts, in its place, but the program's own name.
    ensures ends { (asked : Asked) → IsAskedIn (listed into_iter_items args) (H.world host.old).files asked → ExitsOn H.tells H.world H.alone H.told (listed into_iter_items args) (exit_status result) host.old host.new asked }
    ensures usage { exit_status result ≡ 2 → IfOk (listed into_iter_items args) (λ args. job_of (texts_of args) ≡ None) }
    ensures no_job { IfOk (listed into_iter_items args) (λ args. job_of (texts_of args) ≡ None → exit_status result ≢ 0 × exit_status result ≢ 1) }
    ensures no_text { IfErr (listed into_iter_items args) (λ error. error_kind error ≢ ErrorKind.OutOfMemory → exit_status result ≢ 0 × exit_status result ≢ 1) }
    ensures memory { IfErr (listed into_iter_items args) (λ error. error_kind error ≡ ErrorKind.OutOfMemory → exit_status result ≢ 0 × exit_status result ≢ 1 × exit_status result ≢ 2) }
    ensures written { exit_status result ≢ 3 → exit_status result ≢ 2 → H.waiting host.new ≡ None }
    ensures device { exit_status result ≡ 3 → Rose (H.faults host.old) (H.faults host.new) }
    ensures no_device { exit_status result ≢ 3 → H.faults host.new ≡ H.faults host.old }
{
    let words = words_of(alloc, args);
    serve_words(alloc, &words, host, is_terminal)
}

fn main(rt: HostRuntime) -> ExitCode {
    let is_terminal = rt.stderr().is_terminal();
    let mut host = FileHost::new(rt, rt.alloc());
    serve(rt.alloc(), env::args(&rt), &mut host, is_terminal)
}
