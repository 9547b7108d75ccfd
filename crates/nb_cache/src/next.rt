ghost use Rattle.std.specs.Prelude.{◌≤◌, ◌∷◌, ◌++◌, ℕ, [], List, length};
ghost use Rattle.nb_cache.specs.Held.{Slot, IsNext};
ghost use Rattle.nb_cache.specs.Frames.{shown};

use crate::frames::Frame;
use lru::LruCache;

/// Of the waiting pages that were seen, the one that goes out first, after one page more.
fn sooner(next: Option<(u32, u8)>, page: u32, rank: Option<u8>) -> Option<(u32, u8)>
    ensures { (pages : List (ℕ × Slot)) (bytes : List ℕ) → IsNext pages next → IsNext (pages ++ (page, record { bytes = bytes; rank = rank }) ∷ []) result }
{
    let Some(own) = rank else {
        return next;
    };
    let Some((first, lowest)) = next else {
        return Some((page, own));
    };
    if own < lowest {
        return Some((page, own));
    }
    if lowest < own {
        return Some((first, lowest));
    }
    if page < first {
        return Some((page, own));
    }
    Some((first, lowest))
}

/// The waiting page that goes out first, among the pages in the first `held` frames.
pub(crate) fn next_waiting(frames: &LruCache<u32, Frame>, held: u32) -> Option<(u32, u8)>
    requires { held ≤ length frames.now.entries }
    ensures { IsNext (shown held frames.now.entries) result }
{
    let mut left = held;
    let mut next = None;
    for (_, frame) in frames.iter() {
        if left == 0 {
            return next;
        }
        next = sooner(next, frame.page, frame.rank);
        left -= 1;
    }
    next
}
