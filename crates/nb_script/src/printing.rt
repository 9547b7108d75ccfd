ghost use Rattle.std.specs.Prelude.{◌≡◌, ◌++◌, ◌≤◌, [], ◌∷◌, length, Ok, IfOk, OnOk, IfErr};
ghost use Rattle.std.specs.Fmt.{decimal};
ghost use Rattle.nb_host.specs.declared.faults.Fault.TheVariants.{Memory};
ghost use Rattle.nb_model.specs.declared.statement.Statement.TheVariants.{CreateDb, OpenDb, Write, Backup, CopyTo};
ghost use Rattle.nb_script.specs.Asked.{IsSpelled};
ghost use Rattle.nb_script.specs.Scripts.{script_of};
ghost use Rattle.nb_script.specs.Spelling.{quoted, cache_text, sizes_text, row_text_of, command_text, line_text, spaced_sessions, schedule_text, statements_text, sessions_text, script_text};

use crate::Script;
use nb_host::{Fault, Name};
use nb_model::{Statement, TableName, Text};
use std::alloc::{AllocError, Global};

fn put_number(out: &mut Vec<u8>, number: u64) -> Result<(), AllocError>
    ensures { OnOk result (out.new.items ≡ out.old.items ++ decimal number) }
{
    let mut buffer = itoa::Buffer::new();
    out.extend_from_slice(buffer.format(number).as_bytes())
}

/// Between quotes.
fn put_quoted(out: &mut Vec<u8>, bytes: &[u8]) -> Result<(), AllocError>
    ensures { OnOk result (out.new.items ≡ out.old.items ++ quoted bytes.now) }
{
    out.extend_from_slice(b"'")?;
    out.extend_from_slice(bytes)?;
    out.extend_from_slice(b"'")
}

fn put_name(out: &mut Vec<u8>, name: &Name) -> Result<(), AllocError>
    ensures { OnOk result (out.new.items ≡ out.old.items ++ quoted name.now) }
{
    put_quoted(out, name.as_str().as_bytes())
}

fn put_cache(out: &mut Vec<u8>, cache: u32) -> Result<(), AllocError>
    ensures { OnOk result (out.new.items ≡ out.old.items ++ cache_text cache) }
{
    out.extend_from_slice(b" cache ")?;
    put_number(out, u64::from(cache))
}

/// ` page_size P raw N`
fn put_sizes(out: &mut Vec<u8>, page_size: u32, raw: u32) -> Result<(), AllocError>
    ensures { OnOk result (out.new.items ≡ out.old.items ++ sizes_text page_size raw) }
{
    out.extend_from_slice(b" page_size ")?;
    put_number(out, u64::from(page_size))?;
    out.extend_from_slice(b" raw ")?;
    put_number(out, u64::from(raw))
}

/// `create database ..`
fn put_create(
    out: &mut Vec<u8>,
    name: &Name,
    page_size: u32,
    raw: u32,
    cache: u32,
) -> Result<(), AllocError>
    ensures { OnOk result (out.new.items ≡ out.old.items ++ command_text (CreateDb name.now page_size raw cache)) }
{
    out.extend_from_slice(b"create database ")?;
    put_name(out, name)?;
    put_sizes(out, page_size, raw)?;
    put_cache(out, cache)
}

/// `open ..`
fn put_open(out: &mut Vec<u8>, name: &Name, cache: u32) -> Result<(), AllocError>
    ensures { OnOk result (out.new.items ≡ out.old.items ++ command_text (OpenDb name.now cache)) }
{
    out.extend_from_slice(b"open ")?;
    put_name(out, name)?;
    put_cache(out, cache)
}

/// A word that ends in a space, and a page number.
fn put_page(out: &mut Vec<u8>, word: &[u8], page: u32) -> Result<(), AllocError>
    ensures { OnOk result (out.new.items ≡ out.old.items ++ (word.now ++ decimal page)) }
{
    out.extend_from_slice(word)?;
    put_number(out, u64::from(page))
}

fn put_write(out: &mut Vec<u8>, page: u32, text: &Text) -> Result<(), AllocError>
    ensures { OnOk result (out.new.items ≡ out.old.items ++ command_text (Write page text.now)) }
{
    put_page(out, b"write ", page)?;
    out.extend_from_slice(b" ")?;
    put_quoted(out, text.as_slice())
}

fn put_backup(out: &mut Vec<u8>, level: u8, name: &Name) -> Result<(), AllocError>
    ensures { OnOk result (out.new.items ≡ out.old.items ++ command_text (Backup level name.now)) }
{
    put_page(out, b"backup ", u32::from(level))?;
    out.extend_from_slice(b" to ")?;
    put_name(out, name)
}

fn put_copy(out: &mut Vec<u8>, name: &Name) -> Result<(), AllocError>
    ensures { OnOk result (out.new.items ≡ out.old.items ++ command_text (CopyTo name.now)) }
{
    out.extend_from_slice(b"copy to ")?;
    put_name(out, name)
}

/// A word that ends in a space, and the name of a table.
fn put_table(out: &mut Vec<u8>, word: &[u8], table: &TableName) -> Result<(), AllocError>
    ensures { OnOk result (out.new.items ≡ out.old.items ++ (word.now ++ table.now)) }
{
    out.extend_from_slice(word)?;
    out.extend_from_slice(table.as_str().as_bytes())
}

/// A word that ends in a space, the name of a table and a key.
fn put_row(out: &mut Vec<u8>, word: &[u8], table: &TableName, key: u64) -> Result<(), AllocError>
    ensures { OnOk result (out.new.items ≡ out.old.items ++ (word.now ++ row_text_of table.now key)) }
{
    put_table(out, word, table)?;
    out.extend_from_slice(b" ")?;
    put_number(out, key)
}

/// A word that ends in a space, the name of a table, a key and a text.
fn put_row_text(
    out: &mut Vec<u8>,
    word: &[u8],
    table: &TableName,
    key: u64,
    text: &Text,
) -> Result<(), AllocError>
    ensures { OnOk result (out.new.items ≡ out.old.items ++ (word.now ++ (row_text_of table.now key ++ (32 ∷ quoted text.now)))) }
{
    put_row(out, word, table, key)?;
    out.extend_from_slice(b" ")?;
    put_quoted(out, text.as_slice())
}

/// What stands after the session.
fn put_command(out: &mut Vec<u8>, statement: &Statement) -> Result<(), AllocError>
    ensures { OnOk result (out.new.items ≡ out.old.items ++ command_text statement.now) }
{
    match statement {
        Statement::CreateDb {
            name,
            page_size,
            raw,
            cache,
        } => put_create(out, name, *page_size, *raw, *cache),
        Statement::OpenDb { name, cache } => put_open(out, name, *cache),
        Statement::PageNew => out.extend_from_slice(b"page new"),
        Statement::Write { page, text } => put_write(out, *page, text),
        Statement::Read { page } => put_page(out, b"read ", *page),
        Statement::Free { page } => put_page(out, b"free ", *page),
        Statement::BeginBackup => out.extend_from_slice(b"alter database begin backup"),
        Statement::EndBackup => out.extend_from_slice(b"alter database end backup"),
        Statement::Backup { level, name } => put_backup(out, *level, name),
        Statement::BackupSince { .. } | Statement::Activate => Ok(()),
        Statement::CopyTo { name } => put_copy(out, name),
        Statement::CreateTable { table } => put_table(out, b"create table ", table),
        Statement::DropTable { table } => put_table(out, b"drop table ", table),
        Statement::Insert { table, key, text } => put_row_text(out, b"insert ", table, *key, text),
        Statement::Update { table, key, text } => put_row_text(out, b"update ", table, *key, text),
        Statement::Delete { table, key } => put_row(out, b"delete ", table, *key),
        Statement::Get { table, key } => put_row(out, b"get ", table, *key),
        Statement::Scan { table } => put_table(out, b"scan ", table),
        Statement::Forced { on: true } => out.extend_from_slice(b"forced writes on"),
        Statement::Forced { on: false } => out.extend_from_slice(b"forced writes off"),
        Statement::Access { read_only: true } => out.extend_from_slice(b"access read_only"),
        Statement::Access { read_only: false } => out.extend_from_slice(b"access read_write"),
        Statement::Sync => out.extend_from_slice(b"sync"),
        Statement::Check => out.extend_from_slice(b"check"),
        Statement::Reclaim => out.extend_from_slice(b"reclaim"),
        Statement::ShowHeader => out.extend_from_slice(b"show header"),
        Statement::ShowPages => out.extend_from_slice(b"show pages"),
        Statement::ShowImage => out.extend_from_slice(b"show image"),
        Statement::ShowCache => out.extend_from_slice(b"show cache"),
    }
}

/// The line of a session's statement, and its end.
#[tactic(auto, unfolding(crate::specs::Spelling::line_text))]
fn put_line(out: &mut Vec<u8>, session: u32, statement: &Statement) -> Result<(), AllocError>
    ensures { OnOk result (out.new.items ≡ out.old.items ++ (line_text session statement.now ++ 10 ∷ [])) }
{
    put_number(out, u64::from(session))?;
    out.extend_from_slice(b": ")?;
    put_command(out, statement)?;
    out.extend_from_slice(b"\n")
}

fn put_sessions(out: &mut Vec<u8>, sessions: &[u32]) -> Result<(), AllocError>
    ensures { OnOk result (out.new.items ≡ out.old.items ++ spaced_sessions sessions.now) }
{
    for session in sessions {
        out.extend_from_slice(b" ")?;
        put_number(out, u64::from(*session))?;
    }
    Ok(())
}

#[tactic(auto, unfolding(crate::specs::Spelling::schedule_text))]
fn put_schedule(out: &mut Vec<u8>, sessions: &[u32]) -> Result<(), AllocError>
    ensures { OnOk result (out.new.items ≡ out.old.items ++ schedule_text sessions.now) }
{
    if sessions.is_empty() {
        return Ok(());
    }
    out.extend_from_slice(b"schedule")?;
    put_sessions(out, sessions)?;
    out.extend_from_slice(b"\n")
}

fn put_statements(
    out: &mut Vec<u8>,
    session: u32,
    statements: &[Statement],
) -> Result<(), AllocError>
    ensures { OnOk result (out.new.items ≡ out.old.items ++ statements_text session statements.now) }
{
    for statement in statements {
        put_line(out, session, statement)?;
    }
    Ok(())
}

/// The further statements of every session.
fn put_all(out: &mut Vec<u8>, script: &Script) -> Result<(), AllocError>
    ensures { OnOk result (out.new.items ≡ out.old.items ++ sessions_text 1 script.now.sessions) }
{
    for before in 0..script.session_count() {
        let session = before + 1;
        put_statements(out, session, script.statements(session))?;
    }
    Ok(())
}

/// The first line, the order of turns if there is one, then the statements of each session.
#[tactic(auto, unfolding(crate::specs::Spelling::script_text))]
fn put_script(out: &mut Vec<u8>, script: &Script) -> Result<(), AllocError>
    ensures { OnOk result (out.new.items ≡ out.old.items ++ script_text script.now) }
{
    put_line(out, script.first_session(), script.first())?;
    put_schedule(out, script.schedule())?;
    put_all(out, script)
}

/// The text of a script: the first line, the order of turns if there is one, then the statements of
/// session 1, of session 2, and so on. Each line is ended by a line feed.
///
/// `parse` reads the text of a script that it gave as that script, where the text has at most
/// 1,048,576 bytes. A backup since a GUID has no line: the words of the command line alone ask for it.
pub fn print(alloc: Global, script: &Script) -> Result<Vec<u8>, Fault>
    ensures text { IfOk result (λ text. text.items ≡ script_text script.now) }
    ensures again { IfOk result (λ text. IsSpelled script.now → length text.items ≤ 1048576 → script_of text.items ≡ Ok script.now) }
    ensures only_memory { IfErr result (λ fault. fault ≡ Memory) }
{
    let mut out = Vec::new(alloc);
    put_script(&mut out, script)?;
    Ok(out)
}
