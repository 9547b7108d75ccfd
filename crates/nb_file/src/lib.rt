//! Real files as a host.
//!
//! It rests on `nb_host`, whose contract it meets, and on the system, which is trusted: files, their locks and times, the standard
//! output, `/dev/urandom` and the clock. It tells nothing of what its files hold. A layer above may rely on this: each call
//! is safe and ends, a call fails only where the count of faults rises, and a read never answers more than the buffer holds.
//!
//! Inside, from below: `disk` is an open file as the system gives it, or anything that tells what it holds; `growth` how it grows by
//! whole pages; `state` what is known of it; `waiting` what waits to be written, and `ahead` what was read ahead; `held` one file of all
//! these, whose bytes are proved as far as its disk does what it says; `lock` how it is opened and locked, `stamp` by what it is known again,
//! and `holder` who has it where this run can't; `absent` the names that led to no file, and `alone` those that are held alone; `table` the open files, the order of their writes, and
//! that a run changes what it has seen and nothing that came to be meanwhile; `host` the trait's calls, the count of faults, and what is said
//! of each; `progress` what is shown while a run takes long; `said` what was said last.
//! `docs/WRONG.md` lists what only tests can see.
#![tactic(auto)]

mod absent;
mod ahead;
mod alone;
mod disk;
mod failure;
mod folder;
mod growth;
mod guid;
mod held;
mod holder;
mod host;
mod lock;
mod progress;
mod said;
mod stamp;
mod state;
mod table;
mod waiting;

pub use disk::{Disk, Sharing};
pub use holder::process_that_locks;
pub use host::FileHost;
pub use progress::{Counted, Manner, Progress};
