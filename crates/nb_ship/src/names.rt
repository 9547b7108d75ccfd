// The name of a standby's ship file.
ghost use Rattle.std.specs.Prelude.{◌≡◌, ◌≤◌, length};
ghost use Rattle.nb_ship.specs.Names.{ship_of};

use arrayvec::ArrayString;
use nb_host::{MOST_NAME, Name};

/// What the name of a ship file ends in.
const SHIP_SUFFIX: &str = ".ship";

/// The name of the file in which an increment stands on its way to that standby.
pub fn ship_name(standby: &Name) -> Name
    requires { length standby.now ≤ 94 }
    ensures { result ≡ ship_of standby.now }
{
    let mut text = ArrayString::<100>::new();
    text.push_str(standby.as_str());
    text.push_str(SHIP_SUFFIX);
    Name::read(text.as_str()).unwrap()
}
