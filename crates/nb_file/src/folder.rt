// What stands under a name, and the folder that it stands in.
ghost use Rattle.std.specs.Prelude.{◌≡◌, ◌++◌, ℕ, List, Some, IsTrue, IfOk, IfSome};
ghost use Rattle.std.specs.Fs.{file_type, IsFile};
ghost use Rattle.nb_host.specs.Names.{delta_suffix, is_name};

use crate::disk::no_file;
use nb_host::{DELTA_SUFFIX, Name};
use std::fs::{self, File, Metadata, OpenFile};
use std::io::{self, ErrorKind};
use std::path::Path;
use std::rt::Files;

/// The file that has this name, if there is one. What is no file is an error: a folder, a FIFO, a device, and a
/// symbolic link too.
pub fn look_up<R: Files>(rt: &R, name: &Name) -> io::Result<Option<Metadata>>
    ensures { IfOk result (λ found. IfSome found (λ metadata. IsFile (file_type metadata))) }
{
    match fs::symlink_metadata(rt, name.as_str()) {
        Ok(found) if found.is_file() => Ok(Some(found)),
        Ok(_) => Err(no_file()),
        Err(error) if is_missing(error.kind()) => Ok(None),
        Err(error) => Err(error),
    }
}

// A file is missing too where a name has a file in place of a folder.
fn is_missing(kind: ErrorKind) -> bool {
    kind == ErrorKind::NotFound || kind == ErrorKind::NotADirectory
}

/// The main file beside which this is the difference file, if it is the name of one.
pub fn main_of(name: &Name) -> Option<Name>
    ensures some { IfSome result (λ main. name.now ≡ main ++ delta_suffix) }
    ensures every { (main : List ℕ) → IsTrue (is_name main) → name.now ≡ main ++ delta_suffix → result ≡ Some main }
{
    Name::read(name.as_str().strip_suffix(DELTA_SUFFIX)?)
}

/// Keeps for good which names there are in the folder of `name`.
pub fn sync_folder<R: Files>(rt: &R, name: &Name) -> io::Result<()> {
    let folder = match Path::new(name.as_str()).parent() {
        Some(folder) if !folder.as_str().is_empty() => folder,
        _ => Path::new("."),
    };
    File::open(rt, folder)?.sync_all()
}
