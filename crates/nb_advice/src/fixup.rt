// A copy that wasn't made a database.
ghost use Rattle.std.specs.Prelude.{IfOk};
ghost use Rattle.nb_advice.specs.Advised.{SaysOf, of_fixup};

use crate::opening::no_file;
use crate::refused::Refused;
use crate::seen::Seen;
use nb_host::Name;
use std::alloc::{AllocError, Global};

/// What is to be said where a copy is not fixed, `-F`.
pub(crate) fn fixup(
    alloc: Global,
    db: &Name,
    refused: &Refused<'_>,
    seen: &Seen,
) -> Result<Option<String>, AllocError>
    ensures says { IfOk result (λ text. SaysOf of_fixup refused.now.name.now text) }
{
    let [value, _, _] = refused.values;
    let text = match refused.name {
        "NoFile" => no_file(alloc, value)?,
        "NotDatabase" => format!(in alloc;
            "{db} is no whole copy of a database (page {value}): copy it again while the database is locked"
        )?,
        "DeltaPresent" => format!(in alloc;
            "{value} stands beside {db}, so it is the locked database itself and no copy: end its backup with: nehumiro -N {db}"
        )?,
        "WrongState" if value == "0" => {
            format!(in alloc; "{db} is a database of its own already: nothing is to be done")?
        }
        "WrongState" if value == "2" && seen.has_delta => format!(in alloc;
            "{db} is the database itself, not merged yet behind its last backup: end that with: nehumiro -N {db}"
        )?,
        "WrongState" => format!(in alloc;
            "{db} was copied while it wasn't locked, and isn't whole: copy it again between nehumiro -L and nehumiro -N"
        )?,
        _ => return Ok(None),
    };
    Ok(Some(text))
}
