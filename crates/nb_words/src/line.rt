// The words, read by `clap`: which flags were given, how often, and the plain words.
ghost use Rattle.std.specs.Prelude.{◌≡◌, [], ◌∷◌, map, None, IfOk, IfErr, OnOk, MatchOption, string_bytes, codes, unwrap_or, option_map};
ghost use Rattle.clap.specs.Words.{app_of, with_rule, rows_of, found_of, matches_of, fault_of, count_of, HasKind};
ghost use Rattle.nb_host.specs.declared.faults.Fault.TheVariants.{Memory};
ghost use Rattle.nb_model.specs.Words.{read_words};
ghost use Rattle.nb_words.specs.Line.{bare, flag, line, plain, words_in};
ghost use Rattle.nb_words.specs.Read.{Holds, words_of};

use clap::error::ErrorKind;
use clap::{Arg, ArgAction, ArgMatches, Command, Error};
use nb_host::Fault;
use std::alloc::{AllocError, Global};

fn with_flag<'a>(
    alloc: Global,
    command: Command<'a>,
    id: &'a str,
    letter: char,
) -> Result<Command<'a>, AllocError>
    requires { id.now ≡ letter ∷ [] }
    ensures { IfOk result (λ r. app_of r ≡ with_rule (app_of command.entry) (flag letter)) }
{
    let arg = Arg::new(alloc, id).short(letter).action(ArgAction::Count);
    command.arg(arg)
}

fn with_words<'a>(alloc: Global, command: Command<'a>) -> Result<Command<'a>, AllocError>
    ensures { IfOk result (λ r. app_of r ≡ with_rule (app_of command.entry) plain) }
{
    let arg = Arg::new(alloc, "words")
        .action(ArgAction::Append)
        .num_args(0..);
    command.arg(arg)
}

fn bare_command<'a>(alloc: Global) -> Command<'a>
    ensures { app_of result ≡ bare }
{
    Command::new(alloc, "nehumiro")
        .no_binary_name(true)
        .disable_help_flag(true)
}

fn command<'a>(alloc: Global) -> Result<Command<'a>, AllocError>
    ensures { IfOk result (λ c. app_of c ≡ line) }
{
    let command = bare_command(alloc);
    let command = with_flag(alloc, command, "B", 'B')?;
    let command = with_flag(alloc, command, "R", 'R')?;
    let command = with_flag(alloc, command, "L", 'L')?;
    let command = with_flag(alloc, command, "S", 'S')?;
    let command = with_flag(alloc, command, "N", 'N')?;
    let command = with_flag(alloc, command, "F", 'F')?;
    let command = with_flag(alloc, command, "I", 'I')?;
    with_words(alloc, command)
}

/// What `clap` finds in the words.
fn parsed<'a>(alloc: Global, words: &'a [String]) -> Result<ArgMatches<'a>, Error>
    ensures matches { IfOk result (λ m. rows_of (found_of m) ≡ matches_of line (map string_bytes words.entry.now)) }
    ensures fault { IfErr result (HasKind (fault_of line (map string_bytes words.entry.now))) }
    ensures no_fault { OnOk result (fault_of line (map string_bytes words.entry.now) ≡ []) }
{
    let command = command(alloc)?;
    command.try_get_matches_from(words)
}

/// What `clap` finds in the words, and none where it refuses them.
pub(crate) fn read<'a>(alloc: Global, words: &'a [String]) -> Result<Option<ArgMatches<'a>>, Fault>
    ensures found { IfOk result (λ found. MatchOption found (read_words (map string_bytes words.entry.now) ≡ None) (Holds (map string_bytes words.entry.now))) }
    ensures only_memory { IfErr result (λ fault. fault ≡ Memory) }
{
    match parsed(alloc, words) {
        Ok(matches) => Ok(Some(matches)),
        Err(error) => match error.kind() {
            ErrorKind::OutOfMemory => Err(Fault::Memory),
            _ => Ok(None),
        },
    }
}

/// How often each of the flags B, R, L, S, N, F and I was given, 255 standing for 255 and more.
pub(crate) fn counts(found: &ArgMatches<'_>) -> [u8; 7]
    ensures { result ≡ map (λ letter. count_of (letter ∷ []) (rows_of (found_of found.now))) (codes "BRLSNFI") }
{
    [
        found.get_count("B"),
        found.get_count("R"),
        found.get_count("L"),
        found.get_count("S"),
        found.get_count("N"),
        found.get_count("F"),
        found.get_count("I"),
    ]
}

/// The plain words, in order; none where there aren't any.
pub(crate) fn plain_words<'m, 'a>(found: &'m ArgMatches<'a>) -> Option<&'m [&'a str]>
    ensures { unwrap_or (option_map (λ words. words_of words.now) result) [] ≡ words_in (rows_of (found_of found.now)) }
{
    found.get_raw("words")
}
