// The line of a reply.
ghost use Rattle.std.specs.Prelude.{◌≡◌, ◌++◌, ◌∷◌, [], ◌+◌, ◌≤◌, take, drop, true, IsOk, IfOk, IfErr, OnOk};
ghost use Rattle.std.specs.Vec.{vec_capacity, vec_len};
ghost use Rattle.nb_host.specs.declared.faults.Fault.TheVariants.{Memory};
ghost use Rattle.nb_model.specs.declared.reply.Reply.TheVariants.{Leaked, Planned};
ghost use Rattle.nb_model.specs.Lines.{is, line_text, number, spaced, name_words, page_words, reply_words, refusal_words, row_words};
ghost use Rattle.nb_lines.specs.Brief.{is_brief, HasRoom};
ghost use Rattle.nb_lines.specs.Words.{shown_words};

use crate::brief::push_brief;
use crate::word::{Word, push_number, push_ok, push_two, push_words};
use nb_host::{Fault, Name, Refusal};
use nb_model::{NameList, PageList, Reply, RowList};
use std::alloc::{AllocError, Global};

/// As many bytes as the line of a reply that says what was done has at most.
const ROOM: usize = 192;

/// The number and the name of a refusal.
fn name_of(refusal: &Refusal) -> (u64, &'static str)
    ensures { number result.0 ∷ is result.1.now ∷ [] ≡ take 2 (refusal_words refusal.now) }
{
    match refusal {
        Refusal::Usage => (1, "Usage"),
        Refusal::BadScript { .. } => (2, "BadScript"),
        Refusal::NoFile { .. } => (3, "NoFile"),
        Refusal::FileExists { .. } => (4, "FileExists"),
        Refusal::NotDatabase { .. } => (5, "NotDatabase"),
        Refusal::WrongState { .. } => (6, "WrongState"),
        Refusal::BadDelta { .. } => (7, "BadDelta"),
        Refusal::Unfinished => (8, "Unfinished"),
        Refusal::PageRange { .. } => (9, "PageRange"),
        Refusal::NotAllocated { .. } => (10, "NotAllocated"),
        Refusal::SystemPage { .. } => (11, "SystemPage"),
        Refusal::Full { .. } => (12, "Full"),
        Refusal::ScnExhausted { .. } => (13, "ScnExhausted"),
        Refusal::NoHistory { .. } => (14, "NoHistory"),
        Refusal::BadLevel { .. } => (15, "BadLevel"),
        Refusal::ChainLevel { .. } => (16, "ChainLevel"),
        Refusal::ChainGuid { .. } => (17, "ChainGuid"),
        Refusal::ChainSize { .. } => (18, "ChainSize"),
        Refusal::ChainScn { .. } => (19, "ChainScn"),
        Refusal::Access { .. } => (20, "Access"),
        Refusal::TextLong { .. } => (21, "TextLong"),
        Refusal::NoTable => (22, "NoTable"),
        Refusal::TableExists => (23, "TableExists"),
        Refusal::KeyExists { .. } => (24, "KeyExists"),
        Refusal::NoKey { .. } => (25, "NoKey"),
        Refusal::TooManyTables => (26, "TooManyTables"),
        Refusal::BackupRunning { .. } => (27, "BackupRunning"),
        Refusal::DeltaPresent { .. } => (28, "DeltaPresent"),
        Refusal::ScriptLong { .. } => (29, "ScriptLong"),
        Refusal::NoGuid { .. } => (30, "NoGuid"),
        Refusal::Unsound { .. } => (31, "Unsound"),
        Refusal::ShadowName { .. } => (32, "ShadowName"),
    }
}

/// The values of a refusal's fields.
#[tactic(auto, using(crate::proofs::WordLaws::no_words))]
fn push_fields(line: &mut Vec<u8>, refusal: &Refusal) -> Result<(), AllocError>
    ensures { OnOk result (line.new.items ≡ line.old.items ++ spaced (drop 2 (refusal_words refusal.now))) }
{
    match refusal {
        Refusal::Usage
        | Refusal::Unfinished
        | Refusal::NoTable
        | Refusal::TableExists
        | Refusal::TooManyTables => Ok(()),
        Refusal::BadScript { line: n }
        | Refusal::NotDatabase { page: n }
        | Refusal::WrongState { found: n }
        | Refusal::BadDelta { page: n }
        | Refusal::NotAllocated { page: n }
        | Refusal::SystemPage { page: n }
        | Refusal::Full { count: n }
        | Refusal::ScnExhausted { scn: n }
        | Refusal::NoHistory { level: n }
        | Refusal::Access { found: n }
        | Refusal::BackupRunning { session: n } => push_words(line, &[Word::Number(*n as u64)]),
        Refusal::TextLong { len: n }
        | Refusal::KeyExists { key: n }
        | Refusal::NoKey { key: n }
        | Refusal::ScriptLong { bytes: n } => push_words(line, &[Word::Number(*n)]),
        Refusal::PageRange { page: m, count: n } | Refusal::Unsound { fact: m, page: n } =>
            push_words(line, &[Word::Number(*m as u64), Word::Number(*n as u64)]),
        Refusal::NoFile { name }
        | Refusal::FileExists { name }
        | Refusal::DeltaPresent { name }
        | Refusal::ShadowName { name } => push_words(line, &[Word::Name(name)]),
        Refusal::BadLevel { name, at } => push_words(line, &[Word::Name(name), Word::Number(*at)]),
        Refusal::ChainLevel {
            name,
            found,
            wanted,
        }
        | Refusal::ChainSize {
            name,
            found,
            wanted,
        }
        | Refusal::ChainScn {
            name,
            found,
            wanted,
        } => push_words(
            line,
            &[
                Word::Name(name),
                Word::Number(*found as u64),
                Word::Number(*wanted as u64),
            ],
        ),
        Refusal::ChainGuid {
            name,
            found,
            wanted,
        } => push_words(
            line,
            &[Word::Name(name), Word::Guid(found), Word::Guid(wanted)],
        ),
        Refusal::NoGuid { guid } => push_words(line, &[Word::Guid(guid)]),
    }
}

/// The number of a refusal, its name and the values of its fields.
fn push_refusal(line: &mut Vec<u8>, refusal: &Refusal) -> Result<(), AllocError>
    ensures { OnOk result (line.new.items ≡ line.old.items ++ spaced (refusal_words refusal.now)) }
{
    let (code, name) = name_of(refusal);
    push_words(line, &[Word::Number(code), Word::Is(name)])?;
    push_fields(line, refusal)?;
    Ok(())
}

/// Key and text of each row.
fn push_rows(line: &mut Vec<u8>, rows: &RowList) -> Result<(), AllocError>
    ensures { OnOk result (line.new.items ≡ line.old.items ++ spaced (row_words rows.now)) }
{
    for i in 0..rows.len() {
        let (key, text) = rows.row(i);
        push_words(line, &[Word::Number(key), Word::Quoted(text)])?;
    }
    Ok(())
}

/// Each name.
fn push_names(line: &mut Vec<u8>, names: &[Name]) -> Result<(), AllocError>
    ensures { OnOk result (line.new.items ≡ line.old.items ++ spaced (name_words names.now)) }
{
    for name in names {
        push_words(line, &[Word::Name(name)])?;
    }
    Ok(())
}

/// Each page.
fn push_pages(line: &mut Vec<u8>, pages: &[u32]) -> Result<(), AllocError>
    ensures { OnOk result (line.new.items ≡ line.old.items ++ spaced (page_words pages.now)) }
{
    for page in pages {
        push_words(line, &[Word::Number(*page as u64)])?;
    }
    Ok(())
}

/// How many pages are leaked, and then which.
fn push_leaked(line: &mut Vec<u8>, pages: &PageList) -> Result<(), AllocError>
    ensures { OnOk result (line.new.items ≡ line.old.items ++ spaced (reply_words (Leaked pages.now))) }
{
    push_ok(line, &[("leaked", Word::Number(pages.len() as u64))])?;
    push_pages(line, pages.as_slice())?;
    Ok(())
}

/// How many files a plan keeps, drops and calls orphans, and then the names of those that it drops and of the orphans.
fn push_plan(
    line: &mut Vec<u8>,
    kept: u32,
    dropped: &NameList,
    orphans: &NameList,
) -> Result<(), AllocError>
    ensures { OnOk result (line.new.items ≡ line.old.items ++ spaced (reply_words (Planned kept dropped.now orphans.now))) }
{
    push_ok(
        line,
        &[
            ("keep", Word::Number(kept as u64)),
            ("drop", Word::Number(dropped.len() as u64)),
            ("orphan", Word::Number(orphans.len() as u64)),
        ],
    )?;
    push_names(line, dropped.as_slice())?;
    push_names(line, orphans.as_slice())?;
    Ok(())
}

/// The words of a reply that shows something, and nothing of another.
#[tactic(auto, using(crate::proofs::WordLaws::no_words))]
fn push_shown(line: &mut Vec<u8>, reply: &Reply) -> Result<(), AllocError>
    ensures { OnOk result (line.new.items ≡ line.old.items ++ spaced (shown_words reply.now)) }
{
    match reply {
        Reply::HeaderShown {
            page_size,
            pages,
            state,
            scn,
            guid,
            forced,
            access,
            delta,
        } => push_ok(
            line,
            &[
                ("size", Word::Number(*page_size as u64)),
                ("pages", Word::Number(*pages as u64)),
                ("state", Word::Number(*state as u64)),
                ("scn", Word::Number(*scn as u64)),
                ("guid", Word::Guid(guid)),
                ("forced", Word::Number(*forced as u64)),
                ("access", Word::Number(*access as u64)),
                ("delta", Word::Number(*delta as u64)),
            ],
        ),
        Reply::PagesShown {
            header,
            inventory,
            scn,
            data_pages,
            raw,
            other,
            free,
        } => push_ok(
            line,
            &[
                ("header", Word::Number(*header as u64)),
                ("inventory", Word::Number(*inventory as u64)),
                ("scn", Word::Number(*scn as u64)),
                ("data", Word::Number(*data_pages as u64)),
                ("raw", Word::Number(*raw as u64)),
                ("other", Word::Number(*other as u64)),
                ("free", Word::Number(*free as u64)),
            ],
        ),
        Reply::ImageShown { pages, sha256 } => push_ok(
            line,
            &[
                ("pages", Word::Number(*pages as u64)),
                ("sha256", Word::Digest(sha256)),
            ],
        ),
        Reply::CacheShown { capacity, held } => {
            push_two(line, ("cache", *capacity as u64), ("held", *held as u64))
        }
        _ => Ok(()),
    }
}

/// The words of a reply.
fn push_reply(line: &mut Vec<u8>, reply: &Reply) -> Result<(), AllocError>
    ensures words { OnOk result (line.new.items ≡ line.old.items ++ spaced (reply_words reply.now)) }
    ensures brief { is_brief reply.now ≡ true → (vec_len line.old + 150 ≤ vec_capacity line.old → IsOk result)
        × OnOk result ((vec_capacity line.old ≤ vec_capacity line.new) × (vec_len line.new ≤ vec_len line.old + 150)) }
{
    match reply {
        Reply::Done
        | Reply::Pages { .. }
        | Reply::PageMade { .. }
        | Reply::Scn { .. }
        | Reply::ScnPages { .. }
        | Reply::Level { .. }
        | Reply::Freed { .. }
        | Reply::Activated { .. } => push_brief(line, reply),
        Reply::Opened { pages, state } => {
            push_two(line, ("pages", *pages as u64), ("state", *state as u64))
        }
        Reply::Value { text } => push_words(line, &[Word::Is("ok"), Word::Quoted(text.as_slice())]),
        Reply::Rows { rows } => {
            push_ok(line, &[("rows", Word::Number(rows.len() as u64))])?;
            push_rows(line, rows)?;
            Ok(())
        }
        Reply::HeaderShown { .. }
        | Reply::PagesShown { .. }
        | Reply::ImageShown { .. }
        | Reply::CacheShown { .. } => push_shown(line, reply),
        Reply::Leaked { pages } => push_leaked(line, pages),
        Reply::Planned {
            kept,
            dropped,
            orphans,
        } => push_plan(line, *kept, dropped, orphans),
        Reply::Refused { refusal } => {
            push_words(line, &[Word::Is("refused")])?;
            push_refusal(line, refusal)?;
            Ok(())
        }
    }
}

/// Writes the line of a reply to that session, with its line feed.
fn write_line(line: &mut Vec<u8>, session: u32, reply: &Reply) -> Result<(), AllocError>
    requires empty { line.old.items ≡ [] }
    ensures line { OnOk result (line.new.items ≡ line_text session reply.now) }
    ensures brief { is_brief reply.now ≡ true → 192 ≤ vec_capacity line.old → IsOk result }
{
    push_number(line, session as u64)?;
    line.push(b':')?;
    push_reply(line, reply)?;
    line.push(b'\n')?;
    Ok(())
}

/// Memory for a line, as much as a brief one has at most.
pub fn room(alloc: Global) -> Result<Vec<u8>, Fault>
    ensures room { IfOk result HasRoom }
    ensures only_memory { IfErr result (λ fault. fault ≡ Memory) }
{
    Ok(Vec::with_capacity(alloc, ROOM)?)
}

/// The line of a reply to that session, with its line feed, in that memory. Of a reply that says what was done it wants no more.
pub fn render_in(mut line: Vec<u8>, session: u32, reply: &Reply) -> Result<Vec<u8>, Fault>
    requires room { HasRoom line }
    ensures line { IfOk result (λ line. line.items ≡ line_text session reply.now) }
    ensures brief { is_brief reply.now ≡ true → IsOk result }
    ensures only_memory { IfErr result (λ fault. fault ≡ Memory) }
{
    write_line(&mut line, session, reply)?;
    Ok(line)
}

/// The line of a reply to that session, with its line feed.
pub fn render(alloc: Global, session: u32, reply: &Reply) -> Result<Vec<u8>, Fault>
    ensures line { IfOk result (λ line. line.items ≡ line_text session reply.now) }
    ensures only_memory { IfErr result (λ fault. fault ≡ Memory) }
{
    let line = room(alloc)?;
    render_in(line, session, reply)
}
