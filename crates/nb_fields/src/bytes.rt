ghost use Rattle.std.specs.Prelude.{◌≡◌, ℕ, ◌+◌, ◌^◌, ◌<◌, ◌≤◌, length};
ghost use Rattle.nb_fields.specs.Bytes.{AreApart, is_zeros, number_in, bytes_of, part, with_part};

/// The number in `width` bytes of a page from place `at` on, the lowest byte first.
pub fn number_at(page: &[u8], at: usize, width: usize) -> u64
    requires few { width ≤ 8 }
    requires inside { at + width ≤ length page.now }
    ensures value { result ≡ number_in at width page.now }
    ensures fits { result < 256 ^ width }
{
    let mut bytes = [0; 8];
    bytes[..width].copy_from_slice(&page[at..at + width]);
    u64::from_le_bytes(bytes)
}

/// Writes a number into `width` bytes of a page from place `at` on, and no other byte.
pub fn put_number(page: &mut [u8], at: usize, width: usize, value: u64)
    requires few { width ≤ 8 }
    requires inside { at + width ≤ length page.old }
    requires fits { value < 256 ^ width }
    ensures written { page.new ≡ with_part at (bytes_of width value) page.old }
    ensures value { number_in at width page.new ≡ value }
    ensures others { (by v : ℕ) → AreApart at width by v → number_in by v page.new ≡ number_in by v page.old }
    ensures parts { (by v : ℕ) → AreApart at width by v → part by v page.new ≡ part by v page.old }
{
    page[at..at + width].copy_from_slice(&value.to_le_bytes()[..width]);
}

/// Whether all bytes are zeros.
pub fn are_zeros(bytes: &[u8]) -> bool
    ensures { result ≡ is_zeros bytes.now }
{
    bytes.iter().all(|byte| *byte == 0)
}
