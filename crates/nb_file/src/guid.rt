// GUIDs of version 4.
ghost use Rattle.std.specs.Prelude.{◌≡◌, IfOk, slice_index};
ghost use Rattle.uuid.specs.Uuid.{version_num};
ghost use Rattle.uuid.specs.Parts.{variant_of};
ghost use Rattle.uuid.specs.declared.Variant.TheVariants.{RFC4122};

use std::fs::File;
use std::io::{self, Read};
use std::rt::Files;
use uuid::Builder;

/// A new GUID, from the system's source of random bytes.
pub fn draw<R: Files>(rt: &R) -> io::Result<[u8; 16]>
    ensures version { IfOk result (λ guid. version_num guid ≡ 4) }
    ensures variant { IfOk result (λ guid. variant_of (slice_index guid 8) ≡ RFC4122) }
{
    let mut random = [0; 16];
    File::open(rt, "/dev/urandom")?.read_exact(&mut random)?;
    Ok(Builder::from_random_bytes(random).into_uuid().into_bytes())
}
