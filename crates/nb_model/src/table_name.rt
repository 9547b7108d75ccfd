ghost use Rattle.std.specs.Prelude.{◌≡◌, IsTrue, IfSome, is_some};
ghost use Rattle.std.specs.List.{list_all};
ghost use Rattle.nb_model.specs.TableNames.{is_table_name, is_table_byte};

use arrayvec::ArrayString;
use nb_host::as_text;
use std::marker::Model;

/// How many bytes the name of a table has at most.
pub const MOST_TABLE_NAME: usize = 30;

/// The name of a table: 1 to 30 ASCII letters, digits and `_`, the first a letter.
///
/// Contracts see it as the list of its bytes.
#[derive(Drop)]
pub struct TableName {
    text: ArrayString<30>,
}

impl Model for TableName {
    ghost use Rattle.std.specs.Prelude.{ℕ, List, IsTrue};
    ghost use Rattle.nb_model.specs.TableNames.{is_table_name};

    ghost Value = { List ℕ };

    ghost view = { λ n. n.text.bytes };

    ghost invariant = { λ n. IsTrue (is_table_name n.text.bytes) };
}

fn are_allowed(text: &[u8]) -> bool
    ensures { result ≡ list_all is_table_byte text.now }
{
    text.iter().all(|b| b.is_ascii_alphanumeric() || *b == b'_')
}

impl TableName {
    /// The name that `text` spells, and none where it spells no name of a table.
    pub fn read(text: &str) -> Option<TableName>
        ensures exact { is_some result ≡ is_table_name text.now }
        ensures same { IfSome result (λ name. name ≡ text.now) }
    {
        let bytes = text.as_bytes();
        if bytes.is_empty()
            || bytes.len() > MOST_TABLE_NAME
            || !bytes[0].is_ascii_alphabetic()
            || !are_allowed(bytes)
        {
            return None;
        }
        let mut kept = ArrayString::new();
        kept.push_str(text);
        Some(TableName { text: kept })
    }

    /// The name that these bytes spell, and none where they spell no name of a table.
    #[tactic(auto, using(crate::proofs::TableNameLaws::not_table_name))]
    pub fn read_bytes(bytes: &[u8]) -> Option<TableName>
        ensures exact { is_some result ≡ is_table_name bytes.now }
        ensures same { IfSome result (λ name. name ≡ bytes.now) }
    {
        TableName::read(as_text(bytes)?)
    }

    pub fn as_str(&self) -> &str
        ensures value { result.now ≡ self.now }
        ensures name { IsTrue (is_table_name self.now) }
    {
        self.text.as_str()
    }

    /// The same name. It takes no memory.
    pub fn copied(&self) -> TableName
        ensures { result ≡ self.now }
    {
        TableName { text: self.text }
    }
}
