// A job, from the words to the last reply.
ghost use Rattle.std.specs.Prelude.{◌≡◌, ◌≢◌, ◌⊎◌, ℕ, List, None, Ok, IsErr, map, string_bytes, IsTrue, IfOk};
ghost use Rattle.nb_catalog.specs.NameLists.{list_of};
ghost use Rattle.nb_catalog.specs.Turns.{names_in};
ghost use Rattle.nb_host.specs.Causes.{Rose, CountsRun};
ghost use Rattle.nb_host.specs.declared.refusals.Refusal.TheVariants.{Usage as UsageRefusal};
ghost use Rattle.nb_change.specs.Gave.{GaveNothing};
ghost use Rattle.nb_model.specs.Jobs.{asks_of};
ghost use Rattle.nb_model.specs.declared.job.Ask.TheVariants.{Check as CheckAsk};
ghost use Rattle.nb_model.specs.declared.job.Job.TheVariants.{Attach};
ghost use Rattle.nb_model.specs.declared.statement.Statement.TheVariants.{Check as CheckStatement};
ghost use Rattle.nb_model.specs.Lines.{line_text};
ghost use Rattle.nb_model.specs.declared.reply.Reply.TheVariants.{Refused as RefusedReply};
ghost use Rattle.nb_model.specs.Words.{job_of};
ghost use Rattle.nb_script.specs.Asked.{IsAskable};
ghost use Rattle.nb_script.specs.Scripts.{script_of};
ghost use Rattle.nb_session.specs.Says.{SaysLine};
ghost use Rattle.nb_top.specs.Dangers.{FindsIn, IsDanger, IsDangerOf};
ghost use Rattle.nb_top.specs.Goes.{Goes, IsRun};
ghost use Rattle.nb_top.specs.Requests.{Asked, FitsJob, IsAskedBy, IsReadJob, NamesNone, Runs, attached, plan_of, request_asked, request_of, script_in, to_plan, to_run};
ghost use Rattle.nb_top.specs.Shown.{IsShown, IsShownOf};

use crate::generating::run_generated;
use crate::reading::read_file;
use crate::request::{script_asking, telling_of};
use crate::script::{refuse, run_script, settled};
use crate::ship::run_ship;
use crate::telling::Telling;
use crate::turn::run_turn;
use nb_catalog::read_list;
use nb_ended::{Broken, Status, broken_by};
use nb_host::{Fault, Host, Name, Refusal, RunError};
use nb_model::{Ask, Deed, Job, PageList};
use nb_script::parse;
use nb_words::read_job;
use std::alloc::Global;

/// Runs the script that these bytes spell. Where a line of it breaks its form, that is `broken` then.
fn run_bytes<H: Host>(
    alloc: Global,
    host: &mut H,
    bytes: &[u8],
    broken: &mut Option<Broken>,
) -> Result<Status, RunError>
    requires { broken.old ≡ None }
    ensures goes { Goes H.world H.tells result host.old host.new (Runs (to_run (script_of bytes.now))) }
    ensures shown { IsShownOf result broken.new (Runs (to_run (script_of bytes.now))) }
    ensures done { IfOk result (λ status. (status ≡ Status.Done) ⊎ (status ≡ Status.Refused)) }
    ensures cause { CountsRun result (H.faults host.old) (H.faults host.new) }
{
    match settled(parse(alloc, bytes))? {
        Ok(script) => run_script(alloc, host, &script, Telling::All, &mut None),
        Err(refusal) => {
            *broken = broken_by(alloc, bytes, &refusal, "there is no first statement")?;
            refuse(alloc, host, 0, refusal)
        }
    }
}

/// Runs the script of that name. Where a line of it breaks its form, that is `broken` then.
fn run_file<H: Host>(
    alloc: Global,
    host: &mut H,
    name: &Name,
    broken: &mut Option<Broken>,
) -> Result<Status, RunError>
    requires { broken.old ≡ None }
    ensures goes { Goes H.world H.tells result host.old host.new (Runs (to_run (script_in name.now ((H.world host.old).files name.now)))) }
    ensures shown { IsTrue H.tells → IsShownOf result broken.new (Runs (to_run (script_in name.now ((H.world host.old).files name.now)))) }
    ensures done { IfOk result (λ status. (status ≡ Status.Done) ⊎ (status ≡ Status.Refused)) }
    ensures cause { CountsRun result (H.faults host.old) (H.faults host.new) }
{
    match settled(read_file(alloc, host, name))? {
        Ok(bytes) => run_bytes(alloc, host, &bytes, broken),
        Err(refusal) => refuse(alloc, host, 0, refusal),
    }
}

/// Plans for the files that these bytes name. Where a line of them is no name, that is `broken` then.
fn plan_bytes<H: Host>(
    alloc: Global,
    host: &mut H,
    keep: u32,
    bytes: &[u8],
    broken: &mut Option<Broken>,
) -> Result<Status, RunError>
    requires { broken.old ≡ None }
    ensures goes { Goes H.world H.tells result host.old host.new (to_plan keep (list_of bytes.now)) }
    ensures shown { IsShownOf result broken.new (to_plan keep (list_of bytes.now)) }
    ensures done { IfOk result (λ status. (status ≡ Status.Done) ⊎ (status ≡ Status.Refused)) }
    ensures cause { CountsRun result (H.faults host.old) (H.faults host.new) }
{
    match settled(read_list(alloc, bytes))? {
        Ok(names) => {
            let deed = Deed::Plan { keep, files: names };
            run_turn(alloc, host, &deed)
        }
        Err(refusal) => {
            *broken = broken_by(alloc, bytes, &refusal, "there is no name")?;
            refuse(alloc, host, 0, refusal)
        }
    }
}

/// Plans for the files of the list of that name. Where a line of it is no name, that is `broken` then.
fn plan_list<H: Host>(
    alloc: Global,
    host: &mut H,
    keep: u32,
    list: &Name,
    broken: &mut Option<Broken>,
) -> Result<Status, RunError>
    requires { broken.old ≡ None }
    ensures goes { Goes H.world H.tells result host.old host.new (to_plan keep (names_in list.now ((H.world host.old).files list.now))) }
    ensures shown { IsTrue H.tells → IsShownOf result broken.new (to_plan keep (names_in list.now ((H.world host.old).files list.now))) }
    ensures done { IfOk result (λ status. (status ≡ Status.Done) ⊎ (status ≡ Status.Refused)) }
    ensures cause { CountsRun result (H.faults host.old) (H.faults host.new) }
{
    match settled(read_file(alloc, host, list))? {
        Ok(bytes) => plan_bytes(alloc, host, keep, &bytes, broken),
        Err(refusal) => refuse(alloc, host, 0, refusal),
    }
}

/// Opens a database and asks it this. Of a check, what it has found in danger is `danger` then.
fn run_asking<H: Host>(
    alloc: Global,
    host: &mut H,
    db: &Name,
    ask: &Ask,
    danger: &mut Option<PageList>,
) -> Result<Status, RunError>
    requires askable { IsAskable (plan_of db.now (asks_of ask.now)) }
    ensures goes { Goes H.world H.tells result host.old host.new (Runs (Ok (attached db.now ask.now))) }
    ensures danger { IsTrue H.tells → ask.now ≡ CheckAsk → IfOk result (λ status. FindsIn (H.world host.old).files db.now CheckStatement danger.new) }
    ensures done { IfOk result (λ status. (status ≡ Status.Done) ⊎ (status ≡ Status.Refused)) }
    ensures cause { CountsRun result (H.faults host.old) (H.faults host.new) }
{
    let telling = telling_of(ask);
    match settled(script_asking(alloc, db, ask))? {
        Ok(script) => run_script(alloc, host, &script, telling, danger),
        Err(_) => unreachable!(),
    }
}

/// Does a job. Where it is a script or a plan and a line of its file breaks its form, that is `broken` then. Where it checks a database, what is in
/// danger is `danger`.
fn run_job<H: Host>(
    alloc: Global,
    host: &mut H,
    job: &Job,
    broken: &mut Option<Broken>,
    danger: &mut Option<PageList>,
) -> Result<Status, RunError>
    requires fits { FitsJob job.now }
    requires none { broken.old ≡ None }
    ensures goes { Goes H.world H.tells result host.old host.new (request_of (H.world host.old).files job.now) }
    ensures shown { IsTrue H.tells → IsShownOf result broken.new (request_of (H.world host.old).files job.now) }
    ensures danger { IsTrue H.tells → IsDangerOf result danger.new (H.world host.old).files job.now }
    ensures done { IfOk result (λ status. (status ≡ Status.Done) ⊎ (status ≡ Status.Refused)) }
    ensures cause { CountsRun result (H.faults host.old) (H.faults host.new) }
{
    match job {
        Job::Run { script } => run_file(alloc, host, script, broken),
        Job::Gen { number, script } => run_generated(alloc, host, *number, script),
        Job::Attach { db, ask } => run_asking(alloc, host, db, ask, danger),
        Job::Turn { deed } => run_turn(alloc, host, deed),
        Job::Plan { keep, list } => plan_list(alloc, host, *keep, list, broken),
        Job::Ship { primary, standby } => run_ship(alloc, host, primary, standby),
    }
}

/// Refuses words that name no job.
fn refuse_words<H: Host>(alloc: Global, host: &mut H) -> Result<Status, RunError>
    ensures usage { IfOk result (λ status. status ≡ Status.Usage) }
    ensures line { IsTrue H.tells → SaysLine result (H.world host.old) (H.world host.new) (line_text 0 (RefusedReply UsageRefusal)) }
    ensures gave { GaveNothing (H.world host.old) (H.world host.new) }
    ensures cause { CountsRun result (H.faults host.old) (H.faults host.new) }
{
    refuse(alloc, host, 0, Refusal::Usage)?;
    Ok(Status::Usage)
}

/// Does the job that was read of words, if they name one and memory was enough to read them.
fn do_job<H: Host>(
    alloc: Global,
    job: &Result<Job, Fault>,
    host: &mut H,
    broken: &mut Option<Broken>,
    danger: &mut Option<PageList>,
) -> Result<Status, RunError>
    requires read { IsReadJob job.now }
    requires none { broken.old ≡ None }
    ensures goes { (asked : Asked) → IsAskedBy job.now (H.world host.old).files asked → Goes H.world H.tells result host.old host.new asked }
    ensures shown { (asked : Asked) → IsTrue H.tells → IsAskedBy job.now (H.world host.old).files asked → IsShownOf result broken.new asked }
    ensures danger { IsTrue H.tells → IfOk result (λ status. (db : List ℕ) → job.now ≡ Ok (Attach db CheckAsk) → FindsIn (H.world host.old).files db CheckStatement danger.new) }
    ensures usage { IfOk result (λ status. status ≡ Status.Usage → NamesNone job.now) }
    ensures no_job { IfOk result (λ status. IsErr job.now → status ≡ Status.Usage) }
    ensures done { IfOk result (λ status. (status ≡ Status.Usage) ⊎ ((status ≡ Status.Done) ⊎ (status ≡ Status.Refused))) }
    ensures cause { CountsRun result (H.faults host.old) (H.faults host.new) }
{
    match job {
        Ok(job) => run_job(alloc, host, job, broken, danger),
        Err(fault) => match fault {
            Fault::Refused(_) => refuse_words(alloc, host),
            Fault::Memory => Err(RunError::Memory),
            Fault::Device => unreachable!(),
        },
    }
}

/// Does the job that was read of words: the job that they name, `Usage` where they name none, or `Memory` where it was too short to read them. Where that is a script a line of which breaks its form,
/// that line is `broken` after it. Where it checks a database and the check isn't refused, the pages of it that are in danger are `danger`.
///
/// It says one line for each reply; a job that makes, begins or ends a backup, or shows the statistics, says nothing of the opening but why
/// it is refused. Words that name no job, and a script that cannot be read, are refused to session 0. Where a call of the
/// host fails or memory runs out, the run ends and says nothing more.
pub fn run_read<H: Host>(
    alloc: Global,
    job: &Result<Job, Fault>,
    host: &mut H,
    broken: &mut Option<Broken>,
    danger: &mut Option<PageList>,
) -> Status
    requires read { IsReadJob job.now }
    requires none { broken.old ≡ None }
    ensures device { result ≡ Status.Device → Rose (H.faults host.old) (H.faults host.new) }
    ensures no_device { result ≢ Status.Device → H.faults host.new ≡ H.faults host.old }
    ensures usage { result ≡ Status.Usage → NamesNone job.now }
    ensures no_job { IsErr job.now → result ≢ Status.Done × result ≢ Status.Refused }
    ensures runs { (asked : Asked) → IsAskedBy job.now (H.world host.old).files asked → IsRun H.world H.tells result host.old host.new asked }
    // A line is shown exactly where the script is refused for it; where a call of the host fails or memory runs out it may be lost.
    ensures shown { (asked : Asked) → IsTrue H.tells → IsAskedBy job.now (H.world host.old).files asked → IsShown result broken.new asked }
    // Of a database that is checked just those pages are told which are in danger in the image that its files show.
    ensures danger { IsTrue H.tells → IsDanger result danger.new (H.world host.old).files job.now }
{
    match do_job(alloc, job, host, broken, danger) {
        Ok(status) => status,
        Err(RunError::Device) => Status::Device,
        Err(RunError::Memory) => Status::Memory,
    }
}

/// Does the job that the words name, which are those of the command line without the program's own name.
///
/// What it says and does is what `run_read` does of the job that `nb_words::read_job` reads of them.
pub fn run<H: Host>(alloc: Global, words: &[String], host: &mut H) -> Status
    // The count of the host's faults rises in this call exactly where the answer is Device.
    ensures device { result ≡ Status.Device → Rose (H.faults host.old) (H.faults host.new) }
    ensures no_device { result ≢ Status.Device → H.faults host.new ≡ H.faults host.old }

    // The words name no job exactly where the answer is Usage; want of memory or a fault may come first.
    ensures usage { result ≡ Status.Usage → job_of (map string_bytes words.now) ≡ None }
    ensures no_job { job_of (map string_bytes words.now) ≡ None → result ≢ Status.Done × result ≢ Status.Refused }

    // What the words ask for is done. Where an account knows what the files tell as the call begins, and whatever GUIDs of 16 bytes and times
    // may still be given (`does`, `Performs`): the output is that of the run which the words ask for, and at each moment a crash leaves what may be left of the
    // database after a front of its steps that holds every acknowledged one, each file that the run makes as it was, unfinished or whole, and
    // whole once its turn is acknowledged, and other files as before. So do the files as they read where the run ended early, and other files read
    // as before, whatever the status. Where the files stand for the account and the GUIDs are new, they stand for one with the records after that
    // front, at the end for the account after, and after every status for one with which the next run may begin.
    //
    // Turn by turn (`turns`, `AskedByTurns`): each turn leaves alone every file but the database's two and those that this turn may touch, from the host
    // at which the one before it ended, and one that only tells something, as a refusal, leaves all files as they read before it, byte for byte.
    //
    // For any files there is an account that knows what they tell. So whatever stands in them, no file is touched but the two of the database that the
    // words ask for and those that the job is to make, and Refused or Usage is answered only where the line of a refusal was said
    // (`laws::other_files_stay`).
    ensures performs { IsRun H.world H.tells result host.old host.new (request_asked (H.world host.old).files (map string_bytes words.now)) }
{
    let mut broken = None;
    let mut danger = None;
    run_read(
        alloc,
        &read_job(alloc, words),
        host,
        &mut broken,
        &mut danger,
    )
}
