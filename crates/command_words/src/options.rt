//! The words after a command that are options, as `clap` reads them.

ghost use Rattle.std.specs.Prelude.{◌≡◌, true, false, IfOk, IfSome, IfNone, map, string_bytes};
ghost use Rattle.clap.specs.Words.{found_of, rows_of};
ghost use Rattle.command_words.specs.Options.{SpellOptions, Values};
ghost use Rattle.command_words.specs.Parsing.{AreClean, IsCleanWord, IsOptionsApp, gathered, options_of, told, values_in};

use clap::error::ErrorKind;
use clap::{Arg, ArgMatches, Command};
use grid_exact::NoMemory;
use std::alloc::Global;

/// The values of the options, where they are given.
#[derive(Clone, Copy, Debug, PartialEq, Eq)]
pub(crate) struct Options<'a> {
    pub(crate) listen: Option<&'a str>,
    pub(crate) workers: Option<&'a str>,
    pub(crate) turns: Option<&'a str>,
    pub(crate) db: Option<&'a str>,
}

/// The options that some words are, each at most once, in any order; `None` exactly where they are none.
pub(crate) fn read_options<'a>(
    alloc: Global,
    words: &'a [String],
) -> Result<Option<Options<'a>>, NoMemory>
    ensures some { IfOk result (λ o. IfSome o (λ r. SpellOptions (map (λ s. string_bytes s) words.entry.now) (values_in r))) }
    ensures none { IfOk result (λ o. IfNone o ((values : Values) → SpellOptions (map (λ s. string_bytes s) words.entry.now) values → ⊥)) }
{
    // `clap` takes `--` as the end of the options, and a word with one dash as short ones
    if !are_clean(words) {
        return Ok(None);
    }
    parsed_options(alloc, words)
}

/// Whether no word is `-` or `--`, or begins with one dash alone.
fn are_clean(words: &[String]) -> bool
    ensures yes { result ≡ true → AreClean (map (λ s. string_bytes s) words.now) }
    ensures no { result ≡ false → AreClean (map (λ s. string_bytes s) words.now) → ⊥ }
{
    for at in 0..words.len() {
        if !is_clean_word(words[at].as_str()) {
            return false;
        }
    }
    true
}

/// Whether a word does not begin with a dash, or begins with two and goes on.
fn is_clean_word(word: &str) -> bool
    ensures yes { result ≡ true → IsCleanWord word.now }
    ensures no { result ≡ false → IsCleanWord word.now → ⊥ }
{
    if !word.starts_with("-") {
        return true;
    }
    match word.strip_prefix("--") {
        None => false,
        Some(rest) => !rest.is_empty(),
    }
}

/// The options that `clap` finds in some words.
fn parsed_options<'a>(alloc: Global, words: &'a [String]) -> Result<Option<Options<'a>>, NoMemory>
    ensures { IfOk result (λ o. told o ≡ options_of (map (λ s. string_bytes s) words.entry.now)) }
{
    let app = options_app(alloc)?;
    match app.try_get_matches_from(words) {
        Ok(matches) => Ok(Some(values(&matches))),
        Err(error) => {
            if error.kind() == ErrorKind::OutOfMemory {
                return Err(NoMemory);
            }
            Ok(None)
        }
    }
}

/// The four options, for `clap`. None of them shows help.
fn options_app<'a>(alloc: Global) -> Result<Command<'a>, NoMemory>
    ensures { IfOk result IsOptionsApp }
{
    let listen = Arg::new(alloc, "listen").long("listen");
    let workers = Arg::new(alloc, "workers").long("workers");
    let turns = Arg::new(alloc, "turns").long("turns");
    let db = Arg::new(alloc, "db").long("db");
    let app = Command::new(alloc, "oe")
        .no_binary_name(true)
        .disable_help_flag(true)
        .arg(listen)?
        .arg(workers)?
        .arg(turns)?
        .arg(db)?;
    Ok(app)
}

/// The values that were found.
#[tactic(auto, using(crate::proofs::ParseFacts::first_value_rows))]
fn values<'a>(matches: &ArgMatches<'a>) -> Options<'a>
    ensures { values_in result ≡ gathered (rows_of (found_of matches.now)) }
{
    Options {
        listen: matches.get_str("listen"),
        workers: matches.get_str("workers"),
        turns: matches.get_str("turns"),
        db: matches.get_str("db"),
    }
}
