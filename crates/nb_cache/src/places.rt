ghost use Rattle.std.specs.Prelude.{◌≡◌, ◌<◌, ◌≤◌, ◌-◌, ◌*◌, ℕ, length, take, min, MatchOption, Contains};
ghost use Rattle.nb_cache.specs.Frames.{NoneHolds, FoundAt, IsLast};
ghost use Rattle.nb_cache.specs.Index.{Finds, IsIndexed, holder, left_in, room_of, places};

use crate::frames::Frame;
use crate::index::Index;
use lru::LruCache;

/// The key of the frame that holds a page.
pub(crate) fn frame_of(frames: &LruCache<u32, Frame>, index: &Index, page: u32) -> Option<u32>
    ensures { (held : ℕ) → IsIndexed index.now frames.now.entries held → held ≤ length frames.now.entries → MatchOption result (NoneHolds page (take held frames.now.entries)) (FoundAt frames.now.entries held page) }
{
    // No two keys are equal.
    let _count = frames.len();
    index.find(page)
}

/// Enters the pages in the first `held` frames into an empty index.
fn refill(index: &mut Index, frames: &LruCache<u32, Frame>, held: u32)
    requires empty { (page : ℕ) → holder index.old page ≡ None }
    requires room { 2 * length frames.now.entries ≤ left_in index.old }
    requires within { held ≤ length frames.now.entries }
    requires once { (page key other : ℕ) → Contains (places (take held frames.now.entries)) (page, key) → Contains (places (take held frames.now.entries)) (page, other) → key ≡ other }
    ensures indexed { IsIndexed index.new frames.now.entries held }
    ensures left { length frames.now.entries ≤ left_in index.new }
{
    let mut left = held;
    for (key, frame) in frames.iter() {
        if left == 0 {
            return;
        }
        index.enter(frame.page, *key);
        left -= 1;
    }
}

/// Sees to it that one page more may be entered: after at least as many pages as there are frames, the index begins anew.
pub(crate) fn make_room(index: &mut Index, frames: &LruCache<u32, Frame>, held: u32)
    requires some { 0 < length frames.now.entries }
    requires within { held ≤ length frames.now.entries }
    requires indexed { IsIndexed index.old frames.now.entries held }
    ensures indexed { IsIndexed index.new frames.now.entries held }
    ensures left { 0 < left_in index.new }
{
    if index.is_full() {
        index.clear();
        refill(index, frames, held);
    }
}

/// The key of the least recently used frame, whose page, if it holds one, the index finds no longer.
pub(crate) fn vacate(index: &mut Index, frames: &LruCache<u32, Frame>, held: u32) -> u32
    requires some { 0 < length frames.now.entries }
    requires within { held ≤ length frames.now.entries }
    requires indexed { IsIndexed index.old frames.now.entries held }
    ensures last { IsLast frames.now.entries result }
    ensures finds { Finds index.new (places (take (min held (length frames.now.entries - 1)) frames.now.entries)) }
    ensures left { left_in index.new ≡ left_in index.old }
    ensures room { room_of index.new ≡ room_of index.old }
{
    // No two keys are equal.
    let count = frames.len();
    let (key, frame) = frames.peek_lru().unwrap();
    if (held as usize) < count {
        return *key;
    }
    index.leave(frame.page);
    *key
}
