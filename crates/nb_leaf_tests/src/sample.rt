// What the files of tests are called.
use nb_host::Name;
use std::test::Fail;

/// The name that a file has.
pub(crate) fn name_of(text: &str) -> Result<Name, Fail> {
    Ok(Name::read(text).ok_or("no name")?)
}
