ghost use Rattle.std.specs.Prelude.{◌≡◌, ◌++◌, [], ◌∷◌, length, OnOk, OnErr, IfErr};
ghost use Rattle.nb_host.specs.declared.faults.Fault.TheVariants.{Memory};

use nb_host::Fault;
use std::alloc::Global;
use std::marker::Model;

/// Numbers of pages, in order. Contracts see it as a list.
#[derive(Drop)]
pub struct PageList {
    pages: Vec<u32>,
}

impl Model for PageList {
    ghost use Rattle.std.specs.Prelude.{ℕ, List};

    ghost Value = { List ℕ };

    ghost view = { λ l. l.pages.items };
}

impl PageList {
    /// No pages. It takes no memory.
    pub fn new(alloc: Global) -> PageList
        ensures { result ≡ [] }
    {
        PageList {
            pages: Vec::new(alloc),
        }
    }

    /// One page more, at the end. Where memory runs out the list stays as it is.
    pub fn push(&mut self, page: u32) -> Result<(), Fault>
        ensures ok { OnOk result (self.new ≡ self.old ++ page ∷ []) }
        ensures err { OnErr result (self.new ≡ self.old) }
        ensures only_memory { IfErr result (λ fault. fault ≡ Memory) }
    {
        self.pages.push(page)?;
        Ok(())
    }

    pub fn len(&self) -> usize
        ensures { result ≡ length self.now }
    {
        self.pages.len()
    }

    pub fn as_slice(&self) -> &[u32]
        ensures { result.now ≡ self.now }
    {
        self.pages.as_slice()
    }
}
