ghost use Rattle.std.specs.Prelude.{◌≡◌, ◌<◌, ◌≤◌, ℕ, List, [], IsTrue, OnOk, length};
ghost use Rattle.nb_host.specs.Answers.{IsTaken};
ghost use Rattle.nb_host.specs.Causes.{CountsDevice, CountsFault};
ghost use Rattle.nb_change.specs.Gave.{GaveNothing};
ghost use Rattle.nb_level.specs.Heads.{head_of};
ghost use Rattle.nb_model.specs.Image.{Numbered};
ghost use Rattle.nb_model.specs.Levels.{level_bytes};
ghost use Rattle.nb_gather.specs.Gathering.{HasTaken, IsHeaded};
ghost use Rattle.nb_gather.specs.Making.{IsKept, IsUnfinished, IsUnfinishedOr};
ghost use Rattle.nb_fold.specs.Merging.{IsReady, MakesOr};
ghost use Rattle.nb_fold.specs.Sources.{AreOfPages, due};

use crate::merging::merge;
use crate::source::Source;
use nb_gather::LevelFile;
use nb_host::{Fault, Host, HostFault, Name};

/// Makes the file, and writes its head.
fn begin<H: Host>(host: &mut H, file: &LevelFile, out: &Name) -> Result<(), HostFault>
    requires { file.now.name ≡ out.now }
    ensures makes { IsTrue H.tells → IsHeaded (head_of file.now.head) → MakesOr (H.world host.old) (H.world host.new) out.now IsUnfinished }
    ensures begun { IsTrue H.tells → file.now.run.count ≡ 0 → file.now.written ≡ 0 → OnOk result (HasTaken (H.world host.new) file.now []) }
    ensures reads { (H.world host.new).reads ≡ (H.world host.old).reads }
    ensures gave { GaveNothing (H.world host.old) (H.world host.new) }
    ensures cause { CountsFault result (H.faults host.old) (H.faults host.new) }
{
    host.make(out)?;
    file.begin(host)
}

/// Makes the file, writes the folded pages into it, and keeps it for good.
pub(crate) fn write<H: Host>(
    host: &mut H,
    sources: &mut [Source],
    file: &mut LevelFile,
    out: &Name,
) -> Result<(), Fault>
    requires name { file.old.name ≡ out.now }
    requires sizes { AreOfPages file.old.head.page_size sources.old }
    requires fresh { file.old.written ≡ 0 }
    requires empty { file.old.run.count ≡ 0 }
    requires few { due sources.old < 4294967295 }
    ensures makes { IsTrue H.tells → (whole : List Numbered) (most : ℕ) → IsReady (H.world host.old) file.old sources.old whole most → MakesOr (H.world host.old) (H.world host.new) out.now (IsUnfinishedOr (level_bytes 102 (head_of file.old.head) whole)) }
    ensures done { IsTrue H.tells → (whole : List Numbered) (most : ℕ) → IsReady (H.world host.old) file.old sources.old whole most → OnOk result (IsKept (H.world host.new) out.now (level_bytes 102 (head_of file.old.head) whole)) }
    ensures pages { IsTrue H.tells → (whole : List Numbered) (most : ℕ) → IsReady (H.world host.old) file.old sources.old whole most → OnOk result (file.new.written ≡ length whole) }
    ensures within { IsTrue H.tells → (whole : List Numbered) (most : ℕ) → IsReady (H.world host.old) file.old sources.old whole most → (H.world host.new).reads ≤ most }
    ensures sure { IsTrue H.tells → (whole : List Numbered) (most : ℕ) → IsReady (H.world host.old) file.old sources.old whole most → IsTaken result (λ done. Unit {0}) }
    ensures head { file.new.head ≡ file.old.head }
    ensures gave { GaveNothing (H.world host.old) (H.world host.new) }
    ensures cause { CountsDevice result (H.faults host.old) (H.faults host.new) }
{
    begin(host, file, out)?;
    merge(host, sources, file)?;
    file.close(host)?;
    Ok(())
}
