ghost use Rattle.std.specs.Prelude.{◌≡◌, ℕ, ◌≤◌, option_map, IfSome, Some};
ghost use Rattle.nb_model.specs.declared.statement.Statement.{Statement};
ghost use Rattle.nb_script.specs.Fits.{FitsFirst};
ghost use Rattle.nb_script.specs.Spelling.{line_text};
ghost use Rattle.nb_script.specs.FirstLine.{cache_at, page_size_at, sizes_at, create_at, open_at, database_at, first_at};

use crate::statements::session_line;
use crate::words::{after, name, within};
use nb_host::MOST_BASE_NAME;
use nb_model::Statement;

/// How many pages the cache holds where the script doesn't say.
const CACHE: u32 = 64;

/// ` cache C` or nothing, to the end of the line.
#[tactic(auto, unfolding(crate::specs::FirstLine::cache_at))]
fn cache(rest: &[u8]) -> Option<u32>
    ensures { result ≡ cache_at rest.now }
{
    if rest.is_empty() {
        return Some(CACHE);
    }
    let rest = after(rest, b" cache ")?;
    let (cache, rest) = within(rest, 1, 4096)?;
    if rest.is_empty() { Some(cache) } else { None }
}

/// One of the six page sizes.
#[tactic(auto, unfolding(crate::specs::FirstLine::page_size_at))]
fn page_size(bytes: &[u8]) -> Option<(u32, &[u8])>
    ensures { option_map (λ x. (x.0, x.1.now)) result ≡ page_size_at bytes.now }
{
    let (size, rest) = within(bytes, 1024, 32768)?;
    match size {
        1024 | 2048 | 4096 | 8192 | 16384 | 32768 => Some((size, rest)),
        _ => None,
    }
}

/// ` page_size P raw N`, and the rest.
#[tactic(auto, unfolding(crate::specs::FirstLine::sizes_at))]
fn sizes(bytes: &[u8]) -> Option<(u32, u32, &[u8])>
    ensures { option_map (λ x. (x.0, x.1, x.2.now)) result ≡ sizes_at bytes.now }
{
    let rest = after(bytes, b" page_size ")?;
    let (size, rest) = page_size(rest)?;
    let rest = after(rest, b" raw ")?;
    let (raw, rest) = within(rest, 0, 65535)?;
    Some((size, raw, rest))
}

/// `'NAME' page_size P raw N` and the cache.
#[tactic(auto, unfolding(crate::specs::FirstLine::create_at))]
fn create(bytes: &[u8]) -> Option<Statement>
    ensures { result ≡ create_at bytes.now }
{
    let (name, rest) = name(bytes, MOST_BASE_NAME)?;
    let (page_size, raw, rest) = sizes(rest)?;
    let cache = cache(rest)?;
    Some(Statement::CreateDb {
        name,
        page_size,
        raw,
        cache,
    })
}

/// `'NAME'` and the cache.
#[tactic(auto, unfolding(crate::specs::FirstLine::open_at))]
fn open(bytes: &[u8]) -> Option<Statement>
    ensures { result ≡ open_at bytes.now }
{
    let (name, rest) = name(bytes, MOST_BASE_NAME)?;
    let cache = cache(rest)?;
    Some(Statement::OpenDb { name, cache })
}

/// `create database ..` or `open ..`.
#[tactic(auto, unfolding(crate::specs::FirstLine::database_at))]
fn database(bytes: &[u8]) -> Option<Statement>
    ensures { result ≡ database_at bytes.now }
{
    if let Some(rest) = after(bytes, b"create database ") {
        return create(rest);
    }
    let rest = after(bytes, b"open ")?;
    open(rest)
}

/// The session and the statement of the first line.
#[tactic(auto, unfolding(crate::specs::FirstLine::first_at))]
pub(crate) fn first_statement(line: &[u8]) -> Option<(u32, Statement)>
    ensures exact { result ≡ first_at line.now }
    ensures again { (asks : ℕ) (asked : Statement) → 1 ≤ asks → asks ≤ 16 → FitsFirst asked → line.now ≡ line_text asks asked → result ≡ Some (asks, asked) }
    ensures session { IfSome result (λ x. (1 ≤ x.0) × (x.0 ≤ 16)) }
{
    let (session, rest) = session_line(line)?;
    let statement = database(rest)?;
    Some((session, statement))
}
