// The words of a reply that says what a statement has done. Its line is brief.
ghost use Rattle.std.specs.Prelude.{◌≡◌, ◌++◌, ◌∷◌, [], ◌+◌, ◌≤◌, length, codes, IsOk, OnOk};
ghost use Rattle.std.specs.Vec.{vec_capacity, vec_len};
ghost use Rattle.nb_model.specs.declared.reply.Reply.TheVariants.{Level};
ghost use Rattle.nb_model.specs.Lines.{is, number, reply_words, spaced};
ghost use Rattle.nb_lines.specs.Brief.{brief_words};

use crate::word::{push_guid, push_number};
use nb_model::Reply;
use std::alloc::AllocError;

/// Appends the name of a field and its number.
fn push_field(line: &mut Vec<u8>, name: &str, value: u64) -> Result<(), AllocError>
    ensures words { OnOk result (line.new.items ≡ line.old.items ++ spaced (is name.now ∷ number value ∷ [])) }
    ensures grows { vec_capacity line.old ≤ vec_capacity line.new }
    ensures room { vec_len line.old + length name.now + 22 ≤ vec_capacity line.old → IsOk result }
    ensures long { OnOk result (vec_len line.new ≤ vec_len line.old + length name.now + 22) }
{
    line.push(b' ')?;
    line.extend_from_slice(name.as_bytes())?;
    line.push(b' ')?;
    push_number(line, value)?;
    Ok(())
}

/// Appends `ok`.
fn push_done(line: &mut Vec<u8>) -> Result<(), AllocError>
    ensures words { OnOk result (line.new.items ≡ line.old.items ++ spaced (is (codes "ok") ∷ [])) }
    ensures grows { vec_capacity line.old ≤ vec_capacity line.new }
    ensures room { vec_len line.old + 3 ≤ vec_capacity line.old → IsOk result }
    ensures long { OnOk result (vec_len line.new ≤ vec_len line.old + 3) }
{
    line.extend_from_slice(b" ok")?;
    Ok(())
}

/// Appends `ok` and one number by its name.
fn push_one(line: &mut Vec<u8>, name: &str, value: u64) -> Result<(), AllocError>
    ensures words { OnOk result (line.new.items ≡ line.old.items ++ spaced (is (codes "ok") ∷ is name.now ∷ number value ∷ [])) }
    ensures grows { vec_capacity line.old ≤ vec_capacity line.new }
    ensures room { vec_len line.old + length name.now + 25 ≤ vec_capacity line.old → IsOk result }
    ensures long { OnOk result (vec_len line.new ≤ vec_len line.old + length name.now + 25) }
{
    push_done(line)?;
    push_field(line, name, value)?;
    Ok(())
}

/// Appends the level of a backup, its SCN, how many pages it has, and its GUID.
fn push_level(
    line: &mut Vec<u8>,
    level: u64,
    scn: u64,
    pages: u64,
    guid: &[u8; 16],
) -> Result<(), AllocError>
    ensures words { OnOk result (line.new.items ≡ line.old.items ++ spaced (reply_words (Level level scn pages guid.now))) }
    ensures grows { vec_capacity line.old ≤ vec_capacity line.new }
    ensures room { vec_len line.old + 150 ≤ vec_capacity line.old → IsOk result }
    ensures long { OnOk result (vec_len line.new ≤ vec_len line.old + 150) }
{
    push_one(line, "level", level)?;
    push_field(line, "scn", scn)?;
    push_field(line, "pages", pages)?;
    line.extend_from_slice(b" guid ")?;
    push_guid(line, guid)?;
    Ok(())
}

/// The words of a reply that says what was done, and nothing of another.
#[tactic(auto, using(crate::proofs::WordLaws::no_words))]
pub fn push_brief(line: &mut Vec<u8>, reply: &Reply) -> Result<(), AllocError>
    ensures words { OnOk result (line.new.items ≡ line.old.items ++ spaced (brief_words reply.now)) }
    ensures grows { vec_capacity line.old ≤ vec_capacity line.new }
    ensures room { vec_len line.old + 150 ≤ vec_capacity line.old → IsOk result }
    ensures long { OnOk result (vec_len line.new ≤ vec_len line.old + 150) }
{
    match reply {
        Reply::Done => push_done(line),
        Reply::Pages { pages } => push_one(line, "pages", *pages as u64),
        Reply::PageMade { page } => push_one(line, "page", *page as u64),
        Reply::Scn { scn } => push_one(line, "scn", *scn as u64),
        Reply::ScnPages { scn, pages } => {
            push_one(line, "scn", *scn as u64)?;
            push_field(line, "pages", *pages as u64)?;
            Ok(())
        }
        Reply::Level {
            level,
            scn,
            pages,
            guid,
        } => push_level(line, *level as u64, *scn as u64, *pages as u64, guid),
        Reply::Freed { pages } => push_one(line, "freed", *pages as u64),
        Reply::Activated { pages, scn } => {
            push_one(line, "pages", *pages as u64)?;
            push_field(line, "scn", *scn as u64)?;
            Ok(())
        }
        _ => Ok(()),
    }
}
