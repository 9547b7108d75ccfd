ghost use Rattle.std.specs.Prelude.{◌≡◌, ◌+◌, ◌<◌, ◌≤◌, [], ◌∷◌, length, drop, MatchOption, IfSome};
ghost use Rattle.nb_script.specs.Lines.{lines_of, first_len, is_skipped, left};

/// The lines of some bytes that are not skipped, one after the other. A line ends at a line feed or at the end of the bytes. Empty
/// lines and lines that begin with `#` are skipped, and counted.
#[derive(Clone, Copy)]
pub struct Lines<'a> {
    rest: &'a [u8],
    /// How many lines were passed, with those that are skipped.
    passed: u32,
    ghost counted: { passed + length rest.now ≤ 1048576 },
}

fn line_len(bytes: &[u8]) -> usize
    ensures count { result ≡ first_len bytes.now }
    ensures within { result ≤ length bytes.now }
{
    bytes.iter().take_while(|b| **b != b'\n').count()
}

fn without_first(bytes: &[u8]) -> &[u8]
    ensures { result.now ≡ drop 1 bytes.now }
{
    if bytes.is_empty() { bytes } else { &bytes[1..] }
}

/// The first line, and the bytes after it.
fn first_line(bytes: &[u8]) -> (&[u8], &[u8])
    requires { 0 < length bytes.now }
    ensures line { lines_of bytes.now ≡ result.0.now ∷ lines_of result.1.now }
    ensures shorter { length result.1.now < length bytes.now }
{
    let (line, rest) = bytes.split_at(line_len(bytes));
    (line, without_first(rest))
}

fn is_skipped(line: &[u8]) -> bool
    ensures { result ≡ is_skipped line.now }
{
    line.is_empty() || line[0] == b'#'
}

impl<'a> Lines<'a> {
    /// The lines of at most 1,048,576 bytes.
    pub fn new(bytes: &'a [u8]) -> Self
        requires { length bytes.now ≤ 1048576 }
        ensures bytes { result.rest.now ≡ bytes.now }
        ensures none_passed { result.passed ≡ 0 }
    {
        Lines {
            rest: bytes,
            passed: 0,
        }
    }

    /// How many lines were passed, with those that are skipped.
    pub fn passed(&self) -> u32
        ensures { result ≡ self.now.passed }
    {
        self.passed
    }

    /// The next line that is not skipped; `passed` is then its number, from 1.
    pub fn next(&mut self) -> Option<&'a [u8]>
        ensures line { MatchOption result
            ((left self.old.passed self.old.rest.now ≡ []) × (self.new.passed ≡ self.old.passed + length (lines_of self.old.rest.now)))
            (λ line. left self.old.passed self.old.rest.now ≡ (self.new.passed, line.now) ∷ left self.new.passed self.new.rest.now) }
        ensures shorter { IfSome result (λ _. length self.new.rest.now < length self.old.rest.now) }
    {
        while !self.rest.is_empty() {
            let (line, rest) = first_line(self.rest);
            self.rest = rest;
            self.passed += 1;
            if !is_skipped(line) {
                return Some(line);
            }
        }
        None
    }
}
