//! The outcomes that a host in memory has: one law for each rule of a crash, and one for its picks; and one of its GUIDs. None does anything.
//!
//! They speak of what a host has done, newest first, as the contracts of `MemHost` see it.

ghost use Rattle.std.specs.Prelude.{ℕ, ◌≡◌, ◌≢◌, ◌+◌, ◌^◌, ◌<◌, ◌≤◌, Contains, List, [], Some, None, replicate};
ghost use Rattle.nb_host.specs.Files.{File};
ghost use Rattle.nb_mem.specs.declared.entry.Change.{Change as Step};
ghost use Rattle.nb_mem.specs.declared.entry.Entry.{Entry as Call};
ghost use Rattle.nb_mem.specs.Histories.{Now, Back, guid_of, guids_behind};
ghost use Rattle.nb_mem.specs.Crashes.{LeavesAfter, PagesMay, BytesMay, AnewMay, SyncedMay, OthersMay, PicksReach, KeepsAll, LosesAll};

/// A page that was written may be lost or there, each by itself, and the file may have grown by zeros; and of a file that was
/// made or removed before, what stood before that may be back.
pub fn pages_may()
    ensures now { (es : List Call) (n : List ℕ) (at : ℕ) (page : List ℕ) (before : File) → Now es n before → PagesMay es n at page before }
    ensures back { (es : List Call) (n : List ℕ) (at : ℕ) (page : List ℕ) (before : File) → Back es n before → LeavesAfter es n (Step.Paged at page) before }
{}

/// Bytes that were appended may be lost, cut, or zeros, each as it was written or zero; and so on.
pub fn bytes_may()
    ensures now { (es : List Call) (n bytes : List ℕ) (before : File) → Now es n before → BytesMay es n bytes before }
    ensures back { (es : List Call) (n bytes : List ℕ) (before : File) → Back es n before → LeavesAfter es n (Step.Appended bytes) before }
{}

/// A file that was made may be gone again, or as it was before; and one that was removed may be back.
pub fn files_may_be_back()
    ensures made { (es : List Call) (n : List ℕ) → AnewMay es n Step.Made (Some []) }
    ensures removed { (es : List Call) (n : List ℕ) → AnewMay es n Step.Removed None }
{}

/// A file that was synced is as it reads, and so is a placed one. What a crash leaves of the others stays.
pub fn synced_stay()
    ensures synced { (es : List Call) (n : List ℕ) → SyncedMay es n }
    ensures others { (es : List Call) (n : List ℕ) (change : Step) → OthersMay es n change }
{}

/// Each rule has a pick that reaches its outcomes. Pick 1 keeps all, and pick 0 gives each file as it was when it was last placed
/// or synced.
pub fn picks()
    ensures reach { (es : List Call) (n : List ℕ) → PicksReach es n }
    ensures all { (es : List Call) (n : List ℕ) → KeepsAll es n }
    ensures nothing { (es : List Call) (n : List ℕ) → LosesAll es n }
{}

/// A GUID tells its number, and none is nil. So none that is given after others is one of them.
pub fn guids_are_apart()
    ensures apart { (m n : ℕ) → m < 2 ^ 64 → n < 2 ^ 64 → guid_of m ≡ guid_of n → m ≡ n }
    ensures not_nil { (n : ℕ) → 1 ≤ n → n < 2 ^ 64 → guid_of n ≢ replicate 16 0 }
    ensures behind { (count more : ℕ) (guid : List ℕ) → count + more < 2 ^ 64 → Contains (guids_behind 0 count) guid → Contains (guids_behind count more) guid → ⊥ }
{}
