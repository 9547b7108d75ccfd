ghost use Rattle.std.specs.Prelude.{◌≡◌, ◌++◌, ◌≤◌, length, Some, IsTrue, IfSome, is_some};
ghost use Rattle.std.specs.List.{list_all};
ghost use Rattle.std.specs.Cmp.{partial_equiv_from_equiv};
ghost use Rattle.std.specs.Cmp.Lexicographic.{nat_list_eq_equiv};
ghost use Rattle.nb_host.specs.Names.{is_name, is_name_byte, is_delta, delta_suffix, same_name};

use crate::text::as_text;
use arrayvec::ArrayString;
use std::fmt;
use std::marker::Model;

/// How many bytes a name has at most.
pub const MOST_NAME: usize = 100;

/// How many bytes the name of a database has at most, so that its difference file has a name too.
pub const MOST_BASE_NAME: usize = 94;

/// What the name of a difference file ends in.
pub const DELTA_SUFFIX: &str = ".delta";

/// A file's name: 1 to 100 bytes of ASCII letters, digits, `.`, `_`, `-` and `/`.
///
/// Contracts see it as the list of its bytes.
#[derive(Drop)]
pub struct Name {
    text: ArrayString<100>,
}

impl Model for Name {
    ghost use Rattle.std.specs.Prelude.{ℕ, List, IsTrue};
    ghost use Rattle.nb_host.specs.Names.{is_name};

    ghost Value = { List ℕ };

    ghost view = { λ n. n.text.bytes };

    ghost invariant = { λ n. IsTrue (is_name n.text.bytes) };
}

fn is_allowed(byte: u8) -> bool
    ensures { result ≡ is_name_byte byte }
{
    byte.is_ascii_alphanumeric() || byte == b'.' || byte == b'_' || byte == b'-' || byte == b'/'
}

fn are_allowed(text: &[u8]) -> bool
    ensures { result ≡ list_all is_name_byte text.now }
{
    text.iter().all(|b| is_allowed(*b))
}

impl Name {
    /// The name that `text` spells, and none where it spells no name.
    pub fn read(text: &str) -> Option<Name>
        ensures exact { is_some result ≡ is_name text.now }
        ensures same { IfSome result (λ name. name ≡ text.now) }
    {
        if text.len() == 0 || text.len() > MOST_NAME || !are_allowed(text.as_bytes()) {
            return None;
        }
        let mut kept = ArrayString::new();
        kept.push_str(text);
        Some(Name { text: kept })
    }

    /// The name that these bytes spell, and none where they spell no name.
    #[tactic(auto, using(crate::proofs::Ascii::not_name))]
    pub fn read_bytes(bytes: &[u8]) -> Option<Name>
        ensures exact { is_some result ≡ is_name bytes.now }
        ensures same { IfSome result (λ name. name ≡ bytes.now) }
    {
        Name::read(as_text(bytes)?)
    }

    pub fn as_str(&self) -> &str
        ensures value { result.now ≡ self.now }
        ensures name { IsTrue (is_name self.now) }
    {
        self.text.as_str()
    }

    /// Whether it ends in `.delta`, as the name of a difference file does.
    pub fn is_delta(&self) -> bool
        ensures { result ≡ is_delta self.now }
    {
        self.as_str().as_bytes().ends_with(DELTA_SUFFIX.as_bytes())
    }

    /// The name of the difference file beside this database.
    pub fn delta(&self) -> Name
        requires { length self.now ≤ 94 }
        ensures { result ≡ self.now ++ delta_suffix }
    {
        let mut text = self.text;
        text.push_str(DELTA_SUFFIX);
        Name { text }
    }

    /// The same name. It takes no memory.
    pub fn copied(&self) -> Name
        ensures { result ≡ self.now }
    {
        Name { text: self.text }
    }
}

impl PartialEq for Name {
    ghost eq = { same_name };

    ghost laws = { partial_equiv_from_equiv nat_list_eq_equiv };

    fn eq(&self, other: &Self) -> bool {
        self.as_str() == other.as_str()
    }
}

impl Eq for Name {
    ghost laws = { nat_list_eq_equiv };
}

impl fmt::Debug for Name {
    fn fmt<W: fmt::Write>(&self, f: &mut fmt::Formatter<W>) -> fmt::Result {
        fmt::Debug::fmt(&self.as_str(), f)
    }
}

impl fmt::Display for Name {
    ghost output = { λ s. Some s };

    fn fmt<W: fmt::Write>(&self, f: &mut fmt::Formatter<W>) -> fmt::Result {
        f.pad(self.as_str())
    }
}
