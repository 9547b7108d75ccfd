ghost use Rattle.std.specs.Prelude.{◌≡◌, ◌≢◌, ◌*◌, ◌≤◌, ℕ, Bool, IsTrue, List, [], length, Some, None, IfOk, option_map};
ghost use Rattle.nb_host.specs.Files.{is_page_size};
ghost use Rattle.nb_host.specs.World.{World};
ghost use Rattle.nb_host.specs.Crash.{Leaves, Untouched};
ghost use Rattle.nb_host.specs.Calls.{IsStill, Remakes, WritesPage, AppendsBytes, Syncs, ReadsPage, ReadsBytes, IsSilent, CountsRead, Says, GivesGuid, GivesTime};
ghost use Rattle.nb_host.specs.Moments.{Passes, PassesSaying, IsTimely};
ghost use Rattle.nb_host.specs.Causes.{CountsFault, FaultCount};

use crate::{HostFault, Name};

/// Named files of pages, an output, GUIDs and a clock.
///
/// Each call says six things, where they apply: `answer`, what it gives; `files`, what it does to the
/// files and to what a crash leaves of them; `others`, that a crash still leaves of every other file all that it
/// would have left before; `log`, what it says, reads and gives; `time`, which moments it
/// adds at which a crash may come; and `cause`, that it fails only where the count of faults rises.
///
/// What a call does to the files and the log it does also where it fails, as far as its words say.
pub trait Host {
    /// Whether it tells what its files hold. Real files tell nothing.
    ghost tells: { Bool };

    /// All that it tells.
    ghost world: { Self → World };

    /// How often a call has failed, and whose count that is.
    ghost faults: { Self → FaultCount };

    /// The number of bytes of a file, and none where there is no such file.
    fn size(&mut self, name: &Name) -> Result<Option<u64>, HostFault>
        ensures answer { IsTrue tells → IfOk result (λ size. size ≡ option_map length ((world self.old).files name.now)) }
        ensures files { IsStill (world self.old) (world self.new) }
        ensures log { IsSilent (world self.old) (world self.new) }
        ensures time { Passes (world self.old) (world self.new) }
        ensures cause { CountsFault result (faults self.old) (faults self.new) };

    /// Leaves an empty file of that name. Old content is gone.
    fn make(&mut self, name: &Name) -> Result<(), HostFault>
        ensures files { Remakes tells result (world self.old) (world self.new) name.now (Some []) }
        ensures others { Untouched (world self.new) (world self.old) (λ m. m ≢ name.now) }
        ensures log { IsSilent (world self.old) (world self.new) }
        ensures time { Passes (world self.old) (world self.new) }
        ensures cause { CountsFault result (faults self.old) (faults self.new) };

    /// Takes the file away. Where there is none it does nothing.
    fn remove(&mut self, name: &Name) -> Result<(), HostFault>
        ensures files { Remakes tells result (world self.old) (world self.new) name.now None }
        ensures others { Untouched (world self.new) (world self.old) (λ m. m ≢ name.now) }
        ensures log { IsSilent (world self.old) (world self.new) }
        ensures time { Passes (world self.old) (world self.new) }
        ensures cause { CountsFault result (faults self.old) (faults self.new) };

    /// Fills `into` with page `index`, counted in pages of its length, and answers whether the file has it whole.
    fn read_page(&mut self, name: &Name, index: u32, into: &mut [u8]) -> Result<bool, HostFault>
        requires { IsTrue (is_page_size (length into.old)) }
        ensures answer { IsTrue tells → IfOk result (ReadsPage ((world self.old).files name.now) (index * length into.old) into.old into.new) }
        ensures files { IsStill (world self.old) (world self.new) }
        ensures log { CountsRead tells result (world self.old) (world self.new) }
        ensures time { Passes (world self.old) (world self.new) }
        ensures cause { CountsFault result (faults self.old) (faults self.new) };

    /// Puts a page at place `index`, counted in pages of its length. Where the file is shorter, zeros stand between.
    /// Where there is none, it makes one.
    fn write_page(&mut self, name: &Name, index: u32, page: &[u8]) -> Result<(), HostFault>
        requires { IsTrue (is_page_size (length page.now)) }
        ensures files { WritesPage tells result (world self.old) (world self.new) name.now (index * length page.now) page.now }
        ensures others { Untouched (world self.new) (world self.old) (λ m. m ≢ name.now) }
        ensures log { IsSilent (world self.old) (world self.new) }
        ensures time { Passes (world self.old) (world self.new) }
        ensures cause { CountsFault result (faults self.old) (faults self.new) };

    /// Reads as many bytes from `at` on as `into` holds and the file still has, and answers their number.
    fn read_at(&mut self, name: &Name, at: u64, into: &mut [u8]) -> Result<usize, HostFault>
        ensures room { IfOk result (λ count. count ≤ length into.old) }
        ensures answer { IsTrue tells → IfOk result (ReadsBytes ((world self.old).files name.now) at into.old into.new) }
        ensures files { IsStill (world self.old) (world self.new) }
        ensures log { CountsRead tells result (world self.old) (world self.new) }
        ensures time { Passes (world self.old) (world self.new) }
        ensures cause { CountsFault result (faults self.old) (faults self.new) };

    /// Adds bytes at the end of the file. Where there is none, it makes one.
    fn append(&mut self, name: &Name, bytes: &[u8]) -> Result<(), HostFault>
        ensures files { AppendsBytes tells result (world self.old) (world self.new) name.now bytes.now }
        ensures others { Untouched (world self.new) (world self.old) (λ m. m ≢ name.now) }
        ensures log { IsSilent (world self.old) (world self.new) }
        ensures time { Passes (world self.old) (world self.new) }
        ensures cause { CountsFault result (faults self.old) (faults self.new) };

    /// Keeps the file for good: its content, and that it is there or isn't. It makes no file.
    fn sync(&mut self, name: &Name) -> Result<(), HostFault>
        ensures files { Syncs tells result (world self.old) (world self.new) name.now }
        ensures others { Untouched (world self.new) (world self.old) (λ m. m ≢ name.now) }
        ensures log { IsSilent (world self.old) (world self.new) }
        ensures time { Passes (world self.old) (world self.new) }
        ensures cause { CountsFault result (faults self.old) (faults self.new) };

    /// Adds bytes to the output.
    fn say(&mut self, bytes: &[u8]) -> Result<(), HostFault>
        ensures files { IsStill (world self.old) (world self.new) }
        ensures log { Says tells result (world self.old) (world self.new) bytes.now }
        ensures time { PassesSaying (world self.old) (world self.new) }
        ensures cause { CountsFault result (faults self.old) (faults self.new) };

    /// A new GUID. That it is none given before, and isn't nil, is a premise of those who need it.
    fn guid(&mut self) -> Result<[u8; 16], HostFault>
        ensures files { IsStill (world self.old) (world self.new) }
        ensures log { GivesGuid tells result (world self.old) (world self.new) }
        ensures time { Passes (world self.old) (world self.new) }
        ensures cause { CountsFault result (faults self.old) (faults self.new) };

    /// The clock's value, in seconds since the start of 1970. It may fall.
    fn seconds(&mut self) -> Result<u64, HostFault>
        ensures files { IsStill (world self.old) (world self.new) }
        ensures log { GivesTime tells result (world self.old) (world self.new) }
        ensures time { Passes (world self.old) (world self.new) }
        ensures cause { CountsFault result (faults self.old) (faults self.new) };

    /// This moment counts, and since this moment there is no other.
    ghost timely: { (host : Self) → IsTimely (world host) };

    /// What reads now is one of the things that a crash may leave.
    ghost reads_left: { (host : Self) → IsTrue tells → (name : List ℕ) → Leaves (world host) name ((world host).files name) };
}
