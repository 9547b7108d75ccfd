// The name of the database of these tests.
ghost use Rattle.std.specs.Prelude.{◌≤◌, IfOk, length};

use nb_host::{Fault, Name};

/// The name of the database.
pub(crate) fn base_name() -> Result<Name, Fault>
    ensures { IfOk result (λ name. length name ≤ 94) }
{
    Name::read("a.db").ok_or(Fault::Device)
}
