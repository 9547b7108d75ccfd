ghost use Rattle.std.specs.Prelude.{◌≡◌, ◌<◌, nat_eq, length, IsSome, IfSome};
ghost use Rattle.std.specs.Map.{lookup};
ghost use Rattle.std.specs.Option.{option_and_then, option_map};
ghost use Rattle.lru.specs.LruCache.{lru_cache, promoted, last_entry};
ghost use Rattle.std.specs.Map.{set_value};
ghost use Rattle.nb_cache.specs.Frames.{slot_in};
ghost use Rattle.nb_cache.specs.declared.frames.Frame.{Frame};

use crate::frames::Frame;
use lru::LruCache;

/// Puts a page into the frame of that key, which becomes the most recently used.
pub(crate) fn put_in(
    frames: &mut LruCache<u32, Frame>,
    key: u32,
    page: u32,
    rank: Option<u8>,
    bytes: &[u8],
)
    requires there { IsSome (lookup (nat_eq key) (promoted (nat_eq key) frames.old.entries)) }
    requires size { IfSome (lookup (nat_eq key) (promoted (nat_eq key) frames.old.entries)) (λ f. length f.bytes.items ≡ length bytes.now) }
    ensures { (frame : Frame) × (slot_in (key, frame) ≡ (page, record { bytes = bytes.now; rank = rank })) × (frames.new ≡ lru_cache (set_value (nat_eq key) (promoted (nat_eq key) frames.old.entries) frame) frames.old.cap) }
{
    frames.promote(&key);
    let frame = frames.peek_mut(&key).unwrap();
    frame.fill(page, rank, bytes);
}

/// The rank of the page in the frame of that key.
pub(crate) fn rank_at(frames: &LruCache<u32, Frame>, key: u32) -> Option<u8>
    requires { IsSome (lookup (nat_eq key) frames.now.entries) }
    ensures { IfSome (lookup (nat_eq key) frames.now.entries) (λ f. result ≡ f.rank) }
{
    frames.peek(&key).unwrap().rank
}

/// Says of the page in the frame of that key whether it waits.
pub(crate) fn mark(frames: &mut LruCache<u32, Frame>, key: u32, rank: Option<u8>)
    requires { IsSome (lookup (nat_eq key) frames.old.entries) }
    ensures { IfSome (lookup (nat_eq key) frames.old.entries) (λ f. (frame : Frame) × (slot_in (key, frame) ≡ (f.page, record { bytes = f.bytes.items; rank = rank })) × (frames.new ≡ lru_cache (set_value (nat_eq key) frames.old.entries frame) frames.old.cap)) }
{
    let frame = frames.peek_mut(&key).unwrap();
    frame.rank = rank;
}

/// Fills in the bytes in the frame of that key.
pub(crate) fn copy_out(frames: &LruCache<u32, Frame>, key: u32, into: &mut [u8])
    requires there { IsSome (lookup (nat_eq key) frames.now.entries) }
    requires size { IfSome (lookup (nat_eq key) frames.now.entries) (λ f. length into.old ≡ length f.bytes.items) }
    ensures { IfSome (lookup (nat_eq key) frames.now.entries) (λ f. into.new ≡ f.bytes.items) }
{
    let frame = frames.peek(&key).unwrap();
    into.copy_from_slice(frame.bytes.as_slice());
}

/// The page in the least recently used frame, where it waits.
pub(crate) fn waiting_last(frames: &LruCache<u32, Frame>) -> Option<u32>
    requires { 0 < length frames.now.entries }
    ensures { result ≡ option_and_then (λ e. option_map (λ _. e.1.page) e.1.rank) (last_entry frames.now.entries) }
{
    let (_, frame) = frames.peek_lru().unwrap();
    match frame.rank {
        Some(_) => Some(frame.page),
        None => None,
    }
}
