ghost use Rattle.std.specs.Prelude.{◌≡◌, ℕ, ◌+◌, ◌^◌, ◌<◌, ◌≤◌, length};
ghost use Rattle.nb_fields.specs.Bytes.{AreApart, IsWidth, number_in, bytes_of, part, with_part};

use crate::{number_at, put_number};

/// A number of `W` bytes at place `AT` of a page, the lowest byte first.
pub struct Field<const AT: usize, const W: usize>;

impl<const AT: usize, const W: usize> Field<AT, W> {
    /// Where the field stands, and how many bytes it has.
    pub const fn place() -> (usize, usize)
        ensures { result ≡ (AT, W) }
    {
        (AT, W)
    }

    /// The field's value.
    pub fn get(page: &[u8]) -> u64
        requires width { IsWidth W }
        requires inside { AT + W ≤ length page.now }
        ensures value { result ≡ number_in AT W page.now }
        ensures fits { result < 256 ^ W }
    {
        number_at(page, AT, W)
    }

    /// Sets the field, and changes no other byte.
    pub fn put(page: &mut [u8], value: u64)
        requires width { IsWidth W }
        requires inside { AT + W ≤ length page.old }
        requires fits { value < 256 ^ W }
        ensures written { page.new ≡ with_part AT (bytes_of W value) page.old }
        ensures value { number_in AT W page.new ≡ value }
        ensures others { (by v : ℕ) → AreApart AT W by v → number_in by v page.new ≡ number_in by v page.old }
        ensures parts { (by v : ℕ) → AreApart AT W by v → part by v page.new ≡ part by v page.old }
    {
        put_number(page, AT, W, value);
    }
}

/// Sixteen bytes at place `AT` of a page, as a GUID has them.
pub struct Bytes16<const AT: usize>;

impl<const AT: usize> Bytes16<AT> {
    /// Where the bytes stand, and that they are sixteen.
    pub const fn place() -> (usize, usize)
        ensures { result ≡ (AT, 16) }
    {
        (AT, 16)
    }

    /// The bytes.
    pub fn get(page: &[u8]) -> [u8; 16]
        requires { AT + 16 ≤ length page.now }
        ensures { result ≡ part AT 16 page.now }
    {
        let mut bytes = [0; 16];
        bytes.copy_from_slice(&page[AT..AT + 16]);
        bytes
    }

    /// Sets the bytes, and changes no other.
    pub fn put(page: &mut [u8], value: &[u8; 16])
        requires { AT + 16 ≤ length page.old }
        ensures written { page.new ≡ with_part AT value.now page.old }
        ensures value { part AT 16 page.new ≡ value.now }
        ensures others { (by v : ℕ) → AreApart AT 16 by v → number_in by v page.new ≡ number_in by v page.old }
        ensures parts { (by v : ℕ) → AreApart AT 16 by v → part by v page.new ≡ part by v page.old }
    {
        page[AT..AT + 16].copy_from_slice(value);
    }
}

/// Reads or writes named fields of a page, in a function's body.
///
/// `fields!(page; kind: head::Kind, scn: head::Scn);` reads each field into a variable, and
/// `fields!(page; head::Kind = 8, head::Scn = 1);` writes each.
#[macro_export]
macro_rules! fields {
    ($page:expr; $($name:ident: $field:ty),+ $(,)?) => {
        $(let $name = <$field>::get($page);)+
    };
    ($page:expr; $($field:ty = $value:expr),+ $(,)?) => {
        $(<$field>::put($page, $value);)+
    };
}
