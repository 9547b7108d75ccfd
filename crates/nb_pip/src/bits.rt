ghost use Rattle.std.specs.Prelude.{◌≡◌, ◌↔◌, ◌<◌, ◌≤◌, length, slice_index, slice_set, IsTrue, MatchOption};
ghost use Rattle.nb_fields.specs.Places.{is_page_size, bits_in};
ghost use Rattle.nb_pip.specs.Bits.{bits, byte_of, with_bit, KeepsOtherBytes, AreUsed, IsLowestFree};
ghost use Rattle.nb_pip.specs.Ones.{AreZeros, IsLowestOne};

use nb_fields::layouts::inventory::BITS_AT;

// The byte that holds a bit.
fn byte_of(bit: u32) -> usize
    ensures { result ≡ byte_of bit }
{
    BITS_AT + (bit / 8) as usize
}

/// Whether that bit of the inventory page `map` says that its page is used.
pub fn is_used(map: &[u8], bit: u32) -> bool
    requires size { IsTrue (is_page_size (length map.now)) }
    requires bit { bit < bits_in (length map.now) }
    ensures { IsTrue result ↔ (slice_index (bits map.now) bit ≡ 0) }
{
    (map[byte_of(bit)] >> (bit % 8)) & 1 == 0
}

/// Sets that bit of the inventory page `map` to used.
pub fn take(map: &mut [u8], bit: u32)
    requires size { IsTrue (is_page_size (length map.old)) }
    requires bit { bit < bits_in (length map.old) }
    ensures bits { bits map.new ≡ slice_set (bits map.old) bit 0 }
    ensures bytes { KeepsOtherBytes map.old map.new bit }
    ensures page { map.new ≡ with_bit bit 0 map.old }
{
    map[byte_of(bit)] &= !(1 << (bit % 8));
}

/// Sets that bit of the inventory page `map` to free.
pub fn give(map: &mut [u8], bit: u32)
    requires size { IsTrue (is_page_size (length map.old)) }
    requires bit { bit < bits_in (length map.old) }
    ensures bits { bits map.new ≡ slice_set (bits map.old) bit 1 }
    ensures bytes { KeepsOtherBytes map.old map.new bit }
    ensures page { map.new ≡ with_bit bit 1 map.old }
{
    map[byte_of(bit)] |= 1 << (bit % 8);
}

// The lowest 1 of a byte from bit `from` on.
fn lowest_one(byte: u8, from: u32) -> Option<u32>
    requires { from < 8 }
    ensures { MatchOption result (AreZeros byte from 8) (IsLowestOne byte from) }
{
    let rest = byte >> from;
    if rest == 0 {
        None
    } else {
        Some(from + rest.trailing_zeros())
    }
}

/// The lowest free bit of the inventory page `map` from bit `from` on and below bit `below`.
///
/// It reads each byte of the page at most once, and none after that bit.
pub fn lowest_free(map: &[u8], from: u32, below: u32) -> Option<u32>
    requires size { IsTrue (is_page_size (length map.now)) }
    requires below { below ≤ bits_in (length map.now) }
    ensures { MatchOption result (AreUsed (bits map.now) from below) (IsLowestFree (bits map.now) from below) }
{
    let mut bit = from;
    while bit < below {
        let start = bit / 8 * 8;
        if let Some(i) = lowest_one(map[byte_of(bit)], bit % 8) {
            let free = start + i;
            return if free < below { Some(free) } else { None };
        }
        bit = start + 8;
    }
    None
}
