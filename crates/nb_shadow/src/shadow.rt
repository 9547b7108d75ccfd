ghost use Rattle.std.specs.Prelude.{◌≡◌, ◌≢◌, ◌*◌, ◌≤◌, length, [], None, Some, false, IsTrue, IfOk, OnErr, option_map};
ghost use Rattle.nb_host.specs.Files.{is_page_size};
ghost use Rattle.nb_host.specs.Crash.{Untouched};
ghost use Rattle.nb_host.specs.Calls.{IsStill, Remakes, WritesPage, AppendsBytes, Syncs, ReadsPage, ReadsBytes, IsSilent, CountsRead, Says, GivesGuid, GivesTime};
ghost use Rattle.nb_host.specs.Moments.{Passes, PassesSaying};
ghost use Rattle.nb_host.specs.Causes.{CountsFault, Rose};
ghost use Rattle.nb_shadow.specs.Entries.{Asks, Follows};
ghost use Rattle.nb_shadow.specs.Shadowed.{shadowed, counted, IsInStep};
ghost use Rattle.nb_shadow.specs.MirrorLaws.{shadow_timely, shadow_reads};

use crate::Twin;
use nb_host::{Host, HostFault, Name};

/// A host that keeps a twin of one database.
///
/// A change of the database or of its difference file is made there and then on the twin too. Where one of the two calls fails, the call
/// fails and the twin is behind from then on: each further change of the database fails, and the host isn't called. A call on a twin's own
/// name fails at all times. Every other call is the host's.
#[derive(Drop)]
pub struct Shadow<'a, H: Host> {
    pub host: &'a mut H,
    pub twin: Twin,
    ghost in_step: { twin.behind ≡ false → IsTrue H.tells → IsInStep twin.pairs (H.world host.now) },
}

impl<H: Host> Host for Shadow<'_, H> {
    ghost tells = { H.tells };

    ghost world = { λ s. shadowed H.tells s.twin.pairs (H.world s.host.now) };

    ghost faults = { λ s. counted s.host.ghost_name s.twin.pairs (H.faults s.host.now) s.twin.refused };

    ghost timely = { λ s. shadow_timely H.tells s.twin.pairs (H.world s.host.now) s.twin.apart (H.reads_left s.host.now) (H.timely s.host.now) };

    ghost reads_left = { λ s. shadow_reads H.tells s.twin.pairs (H.world s.host.now) s.twin.apart (H.reads_left s.host.now) };

    fn size(&mut self, name: &Name) -> Result<Option<u64>, HostFault>
        ensures answer { IsTrue H.tells → IfOk result (λ size. size ≡ option_map length ((⟦<Shadow<'static, H> as Host>⟧.world self.old).files name.now)) }
        ensures files { IsStill (⟦<Shadow<'static, H> as Host>⟧.world self.old) (⟦<Shadow<'static, H> as Host>⟧.world self.new) }
        ensures log { IsSilent (⟦<Shadow<'static, H> as Host>⟧.world self.old) (⟦<Shadow<'static, H> as Host>⟧.world self.new) }
        ensures time { Passes (⟦<Shadow<'static, H> as Host>⟧.world self.old) (⟦<Shadow<'static, H> as Host>⟧.world self.new) }
        ensures cause { CountsFault result (⟦<Shadow<'static, H> as Host>⟧.faults self.old) (⟦<Shadow<'static, H> as Host>⟧.faults self.new) }
        ensures asks { Asks H.faults result self.old.twin.pairs name.now self.old.host.now self.new.host.now }
        ensures kept { self.new.twin.behind ≡ self.old.twin.behind }
    {
        self.twin.admit(name)?;
        self.host.size(name)
    }

    fn make(&mut self, name: &Name) -> Result<(), HostFault>
        ensures files { Remakes H.tells result (⟦<Shadow<'static, H> as Host>⟧.world self.old) (⟦<Shadow<'static, H> as Host>⟧.world self.new) name.now (Some []) }
        ensures others { Untouched (⟦<Shadow<'static, H> as Host>⟧.world self.new) (⟦<Shadow<'static, H> as Host>⟧.world self.old) (λ m. m ≢ name.now) }
        ensures log { IsSilent (⟦<Shadow<'static, H> as Host>⟧.world self.old) (⟦<Shadow<'static, H> as Host>⟧.world self.new) }
        ensures time { Passes (⟦<Shadow<'static, H> as Host>⟧.world self.old) (⟦<Shadow<'static, H> as Host>⟧.world self.new) }
        ensures cause { CountsFault result (⟦<Shadow<'static, H> as Host>⟧.faults self.old) (⟦<Shadow<'static, H> as Host>⟧.faults self.new) }
        ensures follows { Follows H.faults result self.old.twin.pairs name.now self.old.twin.behind self.new.twin.behind self.old.host.now self.new.host.now }
    {
        let Some(copy) = self.twin.enter(name)? else {
            return self.host.make(name);
        };
        self.host.make(name)?;
        self.host.make(&copy)?;
        self.twin.behind = false;
        Ok(())
    }

    fn remove(&mut self, name: &Name) -> Result<(), HostFault>
        ensures files { Remakes H.tells result (⟦<Shadow<'static, H> as Host>⟧.world self.old) (⟦<Shadow<'static, H> as Host>⟧.world self.new) name.now None }
        ensures others { Untouched (⟦<Shadow<'static, H> as Host>⟧.world self.new) (⟦<Shadow<'static, H> as Host>⟧.world self.old) (λ m. m ≢ name.now) }
        ensures log { IsSilent (⟦<Shadow<'static, H> as Host>⟧.world self.old) (⟦<Shadow<'static, H> as Host>⟧.world self.new) }
        ensures time { Passes (⟦<Shadow<'static, H> as Host>⟧.world self.old) (⟦<Shadow<'static, H> as Host>⟧.world self.new) }
        ensures cause { CountsFault result (⟦<Shadow<'static, H> as Host>⟧.faults self.old) (⟦<Shadow<'static, H> as Host>⟧.faults self.new) }
        ensures follows { Follows H.faults result self.old.twin.pairs name.now self.old.twin.behind self.new.twin.behind self.old.host.now self.new.host.now }
    {
        let Some(copy) = self.twin.enter(name)? else {
            return self.host.remove(name);
        };
        self.host.remove(name)?;
        self.host.remove(&copy)?;
        self.twin.behind = false;
        Ok(())
    }

    fn read_page(&mut self, name: &Name, index: u32, into: &mut [u8]) -> Result<bool, HostFault>
        requires { IsTrue (is_page_size (length into.old)) }
        ensures answer { IsTrue H.tells → IfOk result (ReadsPage ((⟦<Shadow<'static, H> as Host>⟧.world self.old).files name.now) (index * length into.old) into.old into.new) }
        ensures files { IsStill (⟦<Shadow<'static, H> as Host>⟧.world self.old) (⟦<Shadow<'static, H> as Host>⟧.world self.new) }
        ensures log { CountsRead H.tells result (⟦<Shadow<'static, H> as Host>⟧.world self.old) (⟦<Shadow<'static, H> as Host>⟧.world self.new) }
        ensures time { Passes (⟦<Shadow<'static, H> as Host>⟧.world self.old) (⟦<Shadow<'static, H> as Host>⟧.world self.new) }
        ensures cause { CountsFault result (⟦<Shadow<'static, H> as Host>⟧.faults self.old) (⟦<Shadow<'static, H> as Host>⟧.faults self.new) }
        ensures asks { Asks H.faults result self.old.twin.pairs name.now self.old.host.now self.new.host.now }
        ensures kept { self.new.twin.behind ≡ self.old.twin.behind }
    {
        self.twin.admit(name)?;
        self.host.read_page(name, index, into)
    }

    fn write_page(&mut self, name: &Name, index: u32, page: &[u8]) -> Result<(), HostFault>
        requires { IsTrue (is_page_size (length page.now)) }
        ensures files { WritesPage H.tells result (⟦<Shadow<'static, H> as Host>⟧.world self.old) (⟦<Shadow<'static, H> as Host>⟧.world self.new) name.now (index * length page.now) page.now }
        ensures others { Untouched (⟦<Shadow<'static, H> as Host>⟧.world self.new) (⟦<Shadow<'static, H> as Host>⟧.world self.old) (λ m. m ≢ name.now) }
        ensures log { IsSilent (⟦<Shadow<'static, H> as Host>⟧.world self.old) (⟦<Shadow<'static, H> as Host>⟧.world self.new) }
        ensures time { Passes (⟦<Shadow<'static, H> as Host>⟧.world self.old) (⟦<Shadow<'static, H> as Host>⟧.world self.new) }
        ensures cause { CountsFault result (⟦<Shadow<'static, H> as Host>⟧.faults self.old) (⟦<Shadow<'static, H> as Host>⟧.faults self.new) }
        ensures follows { Follows H.faults result self.old.twin.pairs name.now self.old.twin.behind self.new.twin.behind self.old.host.now self.new.host.now }
    {
        let Some(copy) = self.twin.enter(name)? else {
            return self.host.write_page(name, index, page);
        };
        self.host.write_page(name, index, page)?;
        self.host.write_page(&copy, index, page)?;
        self.twin.behind = false;
        Ok(())
    }

    fn read_at(&mut self, name: &Name, at: u64, into: &mut [u8]) -> Result<usize, HostFault>
        ensures room { IfOk result (λ count. count ≤ length into.old) }
        ensures answer { IsTrue H.tells → IfOk result (ReadsBytes ((⟦<Shadow<'static, H> as Host>⟧.world self.old).files name.now) at into.old into.new) }
        ensures files { IsStill (⟦<Shadow<'static, H> as Host>⟧.world self.old) (⟦<Shadow<'static, H> as Host>⟧.world self.new) }
        ensures log { CountsRead H.tells result (⟦<Shadow<'static, H> as Host>⟧.world self.old) (⟦<Shadow<'static, H> as Host>⟧.world self.new) }
        ensures time { Passes (⟦<Shadow<'static, H> as Host>⟧.world self.old) (⟦<Shadow<'static, H> as Host>⟧.world self.new) }
        ensures cause { CountsFault result (⟦<Shadow<'static, H> as Host>⟧.faults self.old) (⟦<Shadow<'static, H> as Host>⟧.faults self.new) }
        ensures asks { Asks H.faults result self.old.twin.pairs name.now self.old.host.now self.new.host.now }
        ensures kept { self.new.twin.behind ≡ self.old.twin.behind }
    {
        self.twin.admit(name)?;
        self.host.read_at(name, at, into)
    }

    fn append(&mut self, name: &Name, bytes: &[u8]) -> Result<(), HostFault>
        ensures files { AppendsBytes H.tells result (⟦<Shadow<'static, H> as Host>⟧.world self.old) (⟦<Shadow<'static, H> as Host>⟧.world self.new) name.now bytes.now }
        ensures others { Untouched (⟦<Shadow<'static, H> as Host>⟧.world self.new) (⟦<Shadow<'static, H> as Host>⟧.world self.old) (λ m. m ≢ name.now) }
        ensures log { IsSilent (⟦<Shadow<'static, H> as Host>⟧.world self.old) (⟦<Shadow<'static, H> as Host>⟧.world self.new) }
        ensures time { Passes (⟦<Shadow<'static, H> as Host>⟧.world self.old) (⟦<Shadow<'static, H> as Host>⟧.world self.new) }
        ensures cause { CountsFault result (⟦<Shadow<'static, H> as Host>⟧.faults self.old) (⟦<Shadow<'static, H> as Host>⟧.faults self.new) }
        ensures follows { Follows H.faults result self.old.twin.pairs name.now self.old.twin.behind self.new.twin.behind self.old.host.now self.new.host.now }
    {
        let Some(copy) = self.twin.enter(name)? else {
            return self.host.append(name, bytes);
        };
        self.host.append(name, bytes)?;
        self.host.append(&copy, bytes)?;
        self.twin.behind = false;
        Ok(())
    }

    fn sync(&mut self, name: &Name) -> Result<(), HostFault>
        ensures files { Syncs H.tells result (⟦<Shadow<'static, H> as Host>⟧.world self.old) (⟦<Shadow<'static, H> as Host>⟧.world self.new) name.now }
        ensures others { Untouched (⟦<Shadow<'static, H> as Host>⟧.world self.new) (⟦<Shadow<'static, H> as Host>⟧.world self.old) (λ m. m ≢ name.now) }
        ensures log { IsSilent (⟦<Shadow<'static, H> as Host>⟧.world self.old) (⟦<Shadow<'static, H> as Host>⟧.world self.new) }
        ensures time { Passes (⟦<Shadow<'static, H> as Host>⟧.world self.old) (⟦<Shadow<'static, H> as Host>⟧.world self.new) }
        ensures cause { CountsFault result (⟦<Shadow<'static, H> as Host>⟧.faults self.old) (⟦<Shadow<'static, H> as Host>⟧.faults self.new) }
        ensures follows { Follows H.faults result self.old.twin.pairs name.now self.old.twin.behind self.new.twin.behind self.old.host.now self.new.host.now }
    {
        let Some(copy) = self.twin.enter(name)? else {
            return self.host.sync(name);
        };
        self.host.sync(name)?;
        self.host.sync(&copy)?;
        self.twin.behind = false;
        Ok(())
    }

    fn say(&mut self, bytes: &[u8]) -> Result<(), HostFault>
        ensures files { IsStill (⟦<Shadow<'static, H> as Host>⟧.world self.old) (⟦<Shadow<'static, H> as Host>⟧.world self.new) }
        ensures log { Says H.tells result (⟦<Shadow<'static, H> as Host>⟧.world self.old) (⟦<Shadow<'static, H> as Host>⟧.world self.new) bytes.now }
        ensures time { PassesSaying (⟦<Shadow<'static, H> as Host>⟧.world self.old) (⟦<Shadow<'static, H> as Host>⟧.world self.new) }
        ensures cause { CountsFault result (⟦<Shadow<'static, H> as Host>⟧.faults self.old) (⟦<Shadow<'static, H> as Host>⟧.faults self.new) }
        ensures blame { OnErr result (Rose (H.faults self.old.host.now) (H.faults self.new.host.now)) }
        ensures kept { self.new.twin.behind ≡ self.old.twin.behind }
    {
        self.host.say(bytes)
    }

    fn guid(&mut self) -> Result<[u8; 16], HostFault>
        ensures files { IsStill (⟦<Shadow<'static, H> as Host>⟧.world self.old) (⟦<Shadow<'static, H> as Host>⟧.world self.new) }
        ensures log { GivesGuid H.tells result (⟦<Shadow<'static, H> as Host>⟧.world self.old) (⟦<Shadow<'static, H> as Host>⟧.world self.new) }
        ensures time { Passes (⟦<Shadow<'static, H> as Host>⟧.world self.old) (⟦<Shadow<'static, H> as Host>⟧.world self.new) }
        ensures cause { CountsFault result (⟦<Shadow<'static, H> as Host>⟧.faults self.old) (⟦<Shadow<'static, H> as Host>⟧.faults self.new) }
        ensures blame { OnErr result (Rose (H.faults self.old.host.now) (H.faults self.new.host.now)) }
        ensures kept { self.new.twin.behind ≡ self.old.twin.behind }
    {
        self.host.guid()
    }

    fn seconds(&mut self) -> Result<u64, HostFault>
        ensures files { IsStill (⟦<Shadow<'static, H> as Host>⟧.world self.old) (⟦<Shadow<'static, H> as Host>⟧.world self.new) }
        ensures log { GivesTime H.tells result (⟦<Shadow<'static, H> as Host>⟧.world self.old) (⟦<Shadow<'static, H> as Host>⟧.world self.new) }
        ensures time { Passes (⟦<Shadow<'static, H> as Host>⟧.world self.old) (⟦<Shadow<'static, H> as Host>⟧.world self.new) }
        ensures cause { CountsFault result (⟦<Shadow<'static, H> as Host>⟧.faults self.old) (⟦<Shadow<'static, H> as Host>⟧.faults self.new) }
        ensures blame { OnErr result (Rose (H.faults self.old.host.now) (H.faults self.new.host.now)) }
        ensures kept { self.new.twin.behind ≡ self.old.twin.behind }
    {
        self.host.seconds()
    }
}
