ghost use Rattle.std.specs.Prelude.{◌≡◌, ◌≢◌, MatchBool};

use nb_host::Name;

/// A file, and the name of its twin.
#[derive(Drop)]
pub struct Pair {
    pub file: Name,
    pub copy: Name,
}

/// The two files of a database, and their twins.
#[derive(Drop)]
pub struct Pairs {
    pub main: Pair,
    pub delta: Pair,
}

/// Whether two names are the same.
pub fn is_same(one: &Name, other: &Name) -> bool
    ensures { MatchBool result (one.now ≡ other.now) (one.now ≢ other.now) }
{
    *one == *other
}
