ghost use Rattle.std.specs.Prelude.{◌≡◌, ◌<◌, ℕ, List, [], ◌∷◌, ◌++◌, length, slice_get, Some, OnOk, OnErr, IfErr};
ghost use Rattle.nb_host.specs.declared.faults.Fault.TheVariants.{Memory};

use crate::Text;
use nb_host::Fault;
use std::alloc::Global;
use std::marker::Model;

#[derive(Drop)]
struct Row {
    key: u64,
    text: Text,
}

/// The rows of a table, as a scan gives them. Contracts see it as a list of key and text.
#[derive(Drop)]
pub struct RowList {
    alloc: Global,
    rows: Vec<Row>,
}

impl Model for RowList {
    ghost use Rattle.std.specs.Prelude.{ℕ, List, map};

    ghost Value = { List (ℕ × List ℕ) };

    ghost view = { λ r. map (λ row. (row.key, row.text)) r.rows.items };
}

impl RowList {
    /// No rows. It takes no memory.
    pub fn new(alloc: Global) -> RowList
        ensures { result ≡ [] }
    {
        RowList {
            alloc,
            rows: Vec::new(alloc),
        }
    }

    /// One row more, at the end. Where memory runs out the rows stay as they are.
    pub fn push(&mut self, key: u64, text: &[u8]) -> Result<(), Fault>
        ensures ok { OnOk result (self.new ≡ self.old ++ (key, text.now) ∷ []) }
        ensures err { OnErr result (self.new ≡ self.old) }
        ensures only_memory { IfErr result (λ fault. fault ≡ Memory) }
    {
        let text = Text::new(self.alloc, text)?;
        self.rows.push(Row { key, text })?;
        Ok(())
    }

    pub fn len(&self) -> usize
        ensures { result ≡ length self.now }
    {
        self.rows.len()
    }

    /// Key and text of the row at place `i`, from 0.
    pub fn row(&self, i: usize) -> (u64, &[u8])
        requires { i < length self.now }
        ensures { slice_get self.now i ≡ Some (result.0, result.1.now) }
    {
        let row = &self.rows[i];
        (row.key, row.text.as_slice())
    }
}
