ghost use Rattle.std.specs.Prelude.{◌≡◌, length, IfOk};

use std::alloc::{AllocError, Global};

/// Room for one page.
#[derive(Drop)]
pub(crate) struct Frame {
    pub(crate) page: u32,
    pub(crate) rank: Option<u8>,
    pub(crate) bytes: Vec<u8>,
}

impl Frame {
    /// A frame for a page of that size.
    pub(crate) fn new(alloc: Global, page_size: u32) -> Result<Frame, AllocError>
        ensures { IfOk result (λ frame. length frame.bytes.items ≡ page_size) }
    {
        Ok(Frame {
            page: 0,
            rank: None,
            bytes: vec![in alloc; 0; page_size as usize]?,
        })
    }

    /// Takes over the bytes of a page, and says whether it waits.
    pub(crate) fn fill(&mut self, page: u32, rank: Option<u8>, bytes: &[u8])
        requires { length self.old.bytes.items ≡ length bytes.now }
        ensures page { self.new.page ≡ page }
        ensures rank { self.new.rank ≡ rank }
        ensures bytes { self.new.bytes.items ≡ bytes.now }
    {
        self.page = page;
        self.rank = rank;
        self.bytes.as_mut_slice().copy_from_slice(bytes);
    }
}
