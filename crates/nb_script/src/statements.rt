ghost use Rattle.std.specs.Prelude.{◌≡◌, ℕ, ◌≤◌, option_map, IfOk, IfErr, IfSome, Some};
ghost use Rattle.nb_host.specs.declared.faults.Fault.TheVariants.{Memory};
ghost use Rattle.nb_model.specs.declared.statement.Statement.{Statement};
ghost use Rattle.nb_script.specs.Fits.{Fits};
ghost use Rattle.nb_script.specs.Spelling.{line_text};
ghost use Rattle.nb_script.specs.Words.{page_at};
ghost use Rattle.nb_script.specs.Statements.{last_page, page_text, last_name, backup_at, last_table, row_at, last_row, row_text, fixed, of_page, of_file, of_table, scan_at, of_row, without_text, command_at, session_line, statement_at};

use crate::words::{after, name, number, table, text, within};
use nb_host::{Fault, MOST_NAME, Name};
use nb_model::{Statement, TableName, Text};
use std::alloc::Global;

fn page(bytes: &[u8]) -> Option<(u32, &[u8])>
    ensures { option_map (λ x. (x.0, x.1.now)) result ≡ page_at bytes.now }
{
    within(bytes, 0, u32::MAX)
}

/// `N` at the end of the line.
#[tactic(auto, unfolding(crate::specs::Statements::last_page))]
fn last_page(bytes: &[u8]) -> Option<u32>
    ensures { result ≡ last_page bytes.now }
{
    let (page, rest) = page(bytes)?;
    if rest.is_empty() { Some(page) } else { None }
}

/// `N 'TEXT'`.
#[tactic(auto, unfolding(crate::specs::Statements::page_text))]
fn page_text(bytes: &[u8]) -> Option<(u32, &[u8])>
    ensures { option_map (λ x. (x.0, x.1.now)) result ≡ page_text bytes.now }
{
    let (page, rest) = page(bytes)?;
    let rest = after(rest, b" ")?;
    let text = text(rest)?;
    Some((page, text))
}

/// `'NAME'` at the end of the line.
#[tactic(auto, unfolding(crate::specs::Statements::last_name))]
fn last_name(bytes: &[u8]) -> Option<Name>
    ensures { result ≡ last_name bytes.now }
{
    let (name, rest) = name(bytes, MOST_NAME)?;
    if rest.is_empty() { Some(name) } else { None }
}

/// `L to 'NAME'`.
#[tactic(auto, unfolding(crate::specs::Statements::backup_at))]
fn backup(bytes: &[u8]) -> Option<Statement>
    ensures { result ≡ backup_at bytes.now }
{
    let (level, rest) = within(bytes, 0, 9)?;
    let rest = after(rest, b" to ")?;
    let name = last_name(rest)?;
    let level = level as u8;
    Some(Statement::Backup { level, name })
}

/// `T` at the end of the line.
#[tactic(auto, unfolding(crate::specs::Statements::last_table))]
fn last_table(bytes: &[u8]) -> Option<TableName>
    ensures { result ≡ last_table bytes.now }
{
    let (table, rest) = table(bytes)?;
    if rest.is_empty() { Some(table) } else { None }
}

/// `T K`, and the rest.
#[tactic(auto, unfolding(crate::specs::Statements::row_at))]
fn row(bytes: &[u8]) -> Option<(TableName, u64, &[u8])>
    ensures { option_map (λ x. (x.0, x.1, x.2.now)) result ≡ row_at bytes.now }
{
    let (table, rest) = table(bytes)?;
    let rest = after(rest, b" ")?;
    let (key, rest) = number(rest)?;
    Some((table, key, rest))
}

/// `T K` at the end of the line.
#[tactic(auto, unfolding(crate::specs::Statements::last_row))]
fn last_row(bytes: &[u8]) -> Option<(TableName, u64)>
    ensures { result ≡ last_row bytes.now }
{
    let (table, key, rest) = row(bytes)?;
    if rest.is_empty() {
        Some((table, key))
    } else {
        None
    }
}

/// `T K 'TEXT'`.
#[tactic(auto, unfolding(crate::specs::Statements::row_text))]
fn row_text(bytes: &[u8]) -> Option<(TableName, u64, &[u8])>
    ensures { option_map (λ x. (x.0, x.1, x.2.now)) result ≡ row_text bytes.now }
{
    let (table, key, rest) = row(bytes)?;
    let rest = after(rest, b" ")?;
    let text = text(rest)?;
    Some((table, key, text))
}

/// The statements of no value.
#[tactic(auto, unfolding(crate::specs::Statements::fixed))]
fn fixed(bytes: &[u8]) -> Option<Statement>
    ensures { result ≡ fixed bytes.now }
{
    if bytes == b"page new".as_slice() {
        Some(Statement::PageNew)
    } else if bytes == b"alter database begin backup".as_slice() {
        Some(Statement::BeginBackup)
    } else if bytes == b"alter database end backup".as_slice() {
        Some(Statement::EndBackup)
    } else if bytes == b"forced writes on".as_slice() {
        Some(Statement::Forced { on: true })
    } else if bytes == b"forced writes off".as_slice() {
        Some(Statement::Forced { on: false })
    } else if bytes == b"access read_only".as_slice() {
        Some(Statement::Access { read_only: true })
    } else if bytes == b"access read_write".as_slice() {
        Some(Statement::Access { read_only: false })
    } else if bytes == b"sync".as_slice() {
        Some(Statement::Sync)
    } else if bytes == b"check".as_slice() {
        Some(Statement::Check)
    } else if bytes == b"reclaim".as_slice() {
        Some(Statement::Reclaim)
    } else if bytes == b"show header".as_slice() {
        Some(Statement::ShowHeader)
    } else if bytes == b"show pages".as_slice() {
        Some(Statement::ShowPages)
    } else if bytes == b"show image".as_slice() {
        Some(Statement::ShowImage)
    } else if bytes == b"show cache".as_slice() {
        Some(Statement::ShowCache)
    } else {
        None
    }
}

/// `read N` and `free N`.
#[tactic(auto, unfolding(crate::specs::Statements::of_page))]
fn of_page(bytes: &[u8]) -> Option<Statement>
    ensures { result ≡ of_page bytes.now }
{
    if let Some(rest) = after(bytes, b"read ") {
        let page = last_page(rest)?;
        return Some(Statement::Read { page });
    }
    let rest = after(bytes, b"free ")?;
    let page = last_page(rest)?;
    Some(Statement::Free { page })
}

/// `backup L to 'NAME'` and `copy to 'NAME'`.
#[tactic(auto, unfolding(crate::specs::Statements::of_file))]
fn of_file(bytes: &[u8]) -> Option<Statement>
    ensures { result ≡ of_file bytes.now }
{
    if let Some(rest) = after(bytes, b"backup ") {
        return backup(rest);
    }
    let rest = after(bytes, b"copy to ")?;
    let name = last_name(rest)?;
    Some(Statement::CopyTo { name })
}

/// `create table T` and `drop table T`.
#[tactic(auto, unfolding(crate::specs::Statements::of_table))]
fn of_table(bytes: &[u8]) -> Option<Statement>
    ensures { result ≡ of_table bytes.now }
{
    if let Some(rest) = after(bytes, b"create table ") {
        let table = last_table(rest)?;
        return Some(Statement::CreateTable { table });
    }
    let rest = after(bytes, b"drop table ")?;
    let table = last_table(rest)?;
    Some(Statement::DropTable { table })
}

/// `scan T`.
#[tactic(auto, unfolding(crate::specs::Statements::scan_at))]
fn scan(bytes: &[u8]) -> Option<Statement>
    ensures { result ≡ scan_at bytes.now }
{
    let rest = after(bytes, b"scan ")?;
    let table = last_table(rest)?;
    Some(Statement::Scan { table })
}

/// `delete T K` and `get T K`.
#[tactic(auto, unfolding(crate::specs::Statements::of_row))]
fn of_row(bytes: &[u8]) -> Option<Statement>
    ensures { result ≡ of_row bytes.now }
{
    if let Some(rest) = after(bytes, b"delete ") {
        let (table, key) = last_row(rest)?;
        return Some(Statement::Delete { table, key });
    }
    let rest = after(bytes, b"get ")?;
    let (table, key) = last_row(rest)?;
    Some(Statement::Get { table, key })
}

/// The statements that have no text.
#[tactic(auto, unfolding(crate::specs::Statements::without_text))]
fn without_text(bytes: &[u8]) -> Option<Statement>
    ensures { result ≡ without_text bytes.now }
{
    of_page(bytes)
        .or_else(|| of_file(bytes))
        .or_else(|| of_table(bytes))
        .or_else(|| scan(bytes))
        .or_else(|| of_row(bytes))
        .or_else(|| fixed(bytes))
}

/// A statement. Its text is copied.
#[tactic(auto, unfolding(crate::specs::Statements::command_at))]
fn command(alloc: Global, bytes: &[u8]) -> Result<Option<Statement>, Fault>
    ensures ok { IfOk result (λ read. read ≡ command_at bytes.now) }
    ensures only_memory { IfErr result (λ fault. fault ≡ Memory) }
{
    if let Some(rest) = after(bytes, b"write ") {
        let Some((page, text)) = page_text(rest) else {
            return Ok(None);
        };
        let text = Text::new(alloc, text)?;
        return Ok(Some(Statement::Write { page, text }));
    }
    if let Some(rest) = after(bytes, b"insert ") {
        let Some((table, key, text)) = row_text(rest) else {
            return Ok(None);
        };
        let text = Text::new(alloc, text)?;
        return Ok(Some(Statement::Insert { table, key, text }));
    }
    if let Some(rest) = after(bytes, b"update ") {
        let Some((table, key, text)) = row_text(rest) else {
            return Ok(None);
        };
        let text = Text::new(alloc, text)?;
        return Ok(Some(Statement::Update { table, key, text }));
    }
    Ok(without_text(bytes))
}

/// `S: ` and what follows.
#[tactic(auto, unfolding(crate::specs::Statements::session_line))]
pub(crate) fn session_line(line: &[u8]) -> Option<(u32, &[u8])>
    ensures exact { option_map (λ x. (x.0, x.1.now)) result ≡ session_line line.now }
    ensures session { IfSome result (λ x. (1 ≤ x.0) × (x.0 ≤ 16)) }
{
    let (session, rest) = within(line, 1, 16)?;
    let rest = after(rest, b": ")?;
    Some((session, rest))
}

/// The session and the statement of a line.
#[tactic(auto, unfolding(crate::specs::Statements::statement_at))]
pub(crate) fn statement(alloc: Global, line: &[u8]) -> Result<Option<(u32, Statement)>, Fault>
    ensures ok { IfOk result (λ read. read ≡ statement_at line.now) }
    ensures again { (asks : ℕ) (asked : Statement) → 1 ≤ asks → asks ≤ 16 → Fits asked → line.now ≡ line_text asks asked → IfOk result (λ read. read ≡ Some (asks, asked)) }
    ensures session { IfOk result (λ read. IfSome read (λ x. (1 ≤ x.0) × (x.0 ≤ 16))) }
    ensures only_memory { IfErr result (λ fault. fault ≡ Memory) }
{
    let Some((session, rest)) = session_line(line) else {
        return Ok(None);
    };
    match command(alloc, rest)? {
        Some(statement) => Ok(Some((session, statement))),
        None => Ok(None),
    }
}
