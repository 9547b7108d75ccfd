// What the environment says, and whether a person watches.
ghost use Rattle.nb_beside.specs.Settings.{WaitsIfSet};

use std::env::{self, VarError};
use std::rt::Env;

/// How many seconds a value of the variable asks a run to wait for locks that others have, none where it is no number of them. Where the variable
/// isn't set, no lock is waited for.
fn seconds_in(value: &Result<String, VarError>) -> Option<u64>
    ensures { WaitsIfSet value.now result }
{
    match value {
        Ok(value) if value.as_str().bytes().all(|byte| byte.is_ascii_digit()) => {
            value.as_str().parse::<u64>().ok()
        }
        Ok(_) => None,
        Err(_) => Some(0),
    }
}

/// How many seconds a run waits for locks that others have, none where the variable is no number of them.
pub fn patience(rt: &(impl Env + AllocGlobal)) -> Option<u64> {
    seconds_in(&env::var(rt, "NEHUMIRO_WAIT"))
}

/// What the variable asks for: that progress is shown, or that none is.
pub fn wants_progress(rt: &(impl Env + AllocGlobal)) -> Option<bool> {
    match env::var(rt, "NEHUMIRO_PROGRESS") {
        Ok(value) => Some(value.as_str() == "1"),
        Err(_) => None,
    }
}
