// What was said last.
ghost use Rattle.std.specs.Prelude.{◌≡◌, ◌⊎◌, [], take};

use std::alloc::Global;
use std::marker::Model;

/// How many bytes of it are kept at most.
const MOST_SAID: usize = 4096;

/// The front of what was said last.
///
/// Contracts see it as the list of its bytes.
#[derive(Drop)]
pub struct Said {
    bytes: Vec<u8>,
}

impl Model for Said {
    ghost use Rattle.std.specs.Prelude.{ℕ, List};

    ghost Value = { List ℕ };

    ghost view = { λ s. s.bytes.items };
}

impl Said {
    /// Nothing was said yet.
    pub fn new(alloc: Global) -> Said
        ensures { result ≡ [] }
    {
        Said {
            bytes: Vec::new(alloc),
        }
    }

    /// Keeps these bytes, as far as there is room for them, and none where memory runs out.
    pub fn keep(&mut self, bytes: &[u8])
        ensures { (self.new ≡ take 4096 bytes.now) ⊎ (self.new ≡ []) }
    {
        let count = MOST_SAID.min(bytes.len());
        self.bytes.clear();
        let _ = self.bytes.extend_from_slice(&bytes[..count]);
    }

    pub fn as_slice(&self) -> &[u8]
        ensures { result.now ≡ self.now }
    {
        self.bytes.as_slice()
    }
}
