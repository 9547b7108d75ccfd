// What is to be said of a job that was done.
use crate::history::Row;
use crate::moment::since;
use crate::seen::{Origin, Seen};
use nb_host::Name;
use std::alloc::{AllocError, Global};
use uuid::Uuid;

/// That a database is locked or not merged yet, since when, and by what that is ended. None of one in the normal state.
pub fn locked(alloc: Global, db: &Name, seen: &Seen) -> Result<Option<String>, AllocError> {
    let since = since(alloc, seen.written)?;
    let text = match seen.state {
        Some(1) => format!(in alloc;
            "{db} is locked{since}, by -L or by a backup that was stopped (by Ctrl-C, a signal or a power cut): end that with: nehumiro -N {db}"
        )?,
        Some(2) => format!(in alloc;
            "{db} isn't merged yet after its last backup, whose end was stopped: end that with: nehumiro -N {db}"
        )?,
        _ => return Ok(None),
    };
    Ok(Some(text))
}

/// Which backup a level file goes on from, by its head and by the row of that backup, where the history has one.
pub fn goes_on(
    alloc: Global,
    file: &Name,
    origin: &Origin,
    row: Option<&Row>,
) -> Result<String, AllocError> {
    let mut buffer = Uuid::encode_buffer();
    let guid = Uuid::from_bytes(origin.guid);
    let guid = guid.hyphenated().encode_lower(&mut buffer);
    let scn = origin.scn;
    let Some(row) = row else {
        return format!(in alloc; "{file} goes on from the backup {guid}, SCN {scn}");
    };
    let level = row.level;
    match &row.name {
        Some(name) => format!(in alloc;
            "{file} goes on from {name}, the backup {guid} of level {level}, SCN {scn}"
        ),
        None => format!(in alloc;
            "{file} goes on from the backup {guid} of level {level}, SCN {scn}"
        ),
    }
}

/// That no restore takes a level file, where it is of level 9 and goes on from another one of level 9. None of any other.
pub fn past_nine(
    alloc: Global,
    file: &Name,
    origin: &Origin,
    row: &Row,
) -> Result<Option<String>, AllocError> {
    if origin.level != 9 || row.level != 9 {
        return Ok(None);
    }
    Ok(Some(format!(in alloc;
        "no restore takes {file} as it is, since it goes on from a backup of level 9, and a chain has one file of each level: fold the files of levels 8 and 9 before it into one, which stands in their place (nehumiro fold NEW FILE FILE), or begin anew with level 0; a standby takes it (nehumiro -I -R STANDBY {file})"
    )?))
}

/// That a backup is in a file whose name another program takes for the standard output. None of other names.
pub fn named_as_output(alloc: Global, file: &Name) -> Result<Option<String>, AllocError> {
    match file.as_str() {
        "stdout" | "-" => Ok(Some(format!(in alloc;
            "the backup is in a file named {file}, and not on the standard output, to which none is ever written: give that file another name, and send it on from there"
        )?)),
        _ => Ok(None),
    }
}

/// That what was written to a database since a backup of it began may be lost, since its difference file has no byte.
pub fn emptied(alloc: Global, db: &Name, began: Option<u64>) -> Result<String, AllocError> {
    let since = since(alloc, began)?;
    format!(in alloc;
        "{db}.delta has no byte, and the begin of a backup had written a page of it, so what was written to {db}{since} may be gone: look for the right {db}.delta before anything else, and don't end the backup before that"
    )
}
