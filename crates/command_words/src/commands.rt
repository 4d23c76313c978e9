//! The commands of the program.

ghost use Rattle.std.specs.Prelude.{◌≡◌, ◌≢◌, ℕ, List, Option, ◌∷◌, IfOk, IfSome, IfNone, codes, map, string_bytes, option_copied};
ghost use Rattle.command_words.specs.Options.{SpellOptions};
ghost use Rattle.command_words.specs.Parsing.{values_in};
ghost use Rattle.command_words.specs.Commands.{IsCommand, IsFile, IsServing, Says, file_alone, values_to_serve, word_of};

use crate::numbers::number_within;
use crate::options::{Options, read_options};
use desk_generator::COUNT_LIMIT;
use grid_exact::NoMemory;
use std::alloc::Global;

/// The greatest seed of the generator.
pub const SEED_LIMIT: u64 = 0x7FFF_FFFF_FFFF_FFFF;

/// The greatest number of workers.
pub const MOST_WORKERS: u32 = 16;

/// The greatest number of turns of a worker.
pub const MOST_TURNS: u64 = 1_000_000;

/// What a desk that was opened does with the lines of the input.
#[derive(Clone, Copy, Debug, PartialEq, Eq)]
pub enum Service {
    /// `desk`: it answers each of them, and stores what it accepts.
    Desk,
    /// `ceiling`: it replies to each structure with the greatest height that has no finding. It accepts nothing.
    Ceiling,
    /// `stations`: it replies to each way, a structure a station, with one list of findings. It accepts nothing.
    Stations,
    /// `asof`: it answers as `desk` does, and replies to lines that ask what a list was after an earlier entry.
    AsOf,
}

/// The command of a run.
#[derive(Clone, Copy, Debug, PartialEq, Eq)]
pub enum Command<'a> {
    /// `desk`, `ceiling`, `stations` or `asof`: a desk is opened, and answers the input. With `--db FILE` its tables are those that are stored in
    /// that file.
    Answer {
        service: Service,
        /// The file of the tables, if they are stored. It is not empty and does not begin with a dash.
        file: Option<&'a str>,
    },
    /// `serve --listen ADDR --workers N --turns M`: a desk is opened, and workers answer the links that come. With `--db FILE` its tables
    /// are those that are stored in that file.
    Serve {
        /// Where links are awaited. It is not empty and does not begin with a dash.
        address: &'a str,
        /// The number of workers, 1 to `MOST_WORKERS`.
        workers: u32,
        /// The number of links that each worker serves, 1 to `MOST_TURNS`.
        turns: u64,
        /// The file of the tables, if they are stored. It is not empty and does not begin with a dash.
        file: Option<&'a str>,
    },
    /// `generate SEED COUNT`: a desk is generated, and its counts are written.
    Generate {
        /// The seed of the draws, at most `SEED_LIMIT`.
        seed: u64,
        /// The number of cases, 1 to `COUNT_LIMIT`.
        count: u32,
    },
}

/// Parses words as a command; `None` exactly where they are none.
pub(crate) fn command_of<'a>(
    alloc: Global,
    words: &'a [String],
) -> Result<Option<Command<'a>>, NoMemory>
    ensures some { IfOk result (λ o. IfSome o (λ c. Says (map (λ s. string_bytes s) words.entry.now) c)) }
    ensures none { IfOk result (λ o. IfNone o (IsCommand (map (λ s. string_bytes s) words.entry.now) → ⊥)) }
{
    let Some((first, rest)) = words.split_first() else {
        return Ok(None);
    };
    let word = first.as_str();
    if word == "generate" {
        return Ok(generate_command(rest));
    }
    if word == "serve" {
        return serve_command(alloc, rest);
    }
    match service_of(word) {
        None => Ok(None),
        Some(service) => answer_command(alloc, service, rest),
    }
}

/// Parses the word of a service.
fn service_of(word: &str) -> Option<Service>
    ensures some { IfSome result (λ s. word.now ≡ word_of s) }
    ensures none { IfNone result ((s : Service) → word.now ≢ word_of s) }
{
    if word == "desk" {
        Some(Service::Desk)
    } else if word == "ceiling" {
        Some(Service::Ceiling)
    } else if word == "stations" {
        Some(Service::Stations)
    } else if word == "asof" {
        Some(Service::AsOf)
    } else {
        None
    }
}

/// Parses the words after that of a service.
fn answer_command<'a>(
    alloc: Global,
    service: Service,
    rest: &'a [String],
) -> Result<Option<Command<'a>>, NoMemory>
    ensures some { IfOk result (λ o. IfSome o (λ c.
        Says (word_of service ∷ map (λ s. string_bytes s) rest.entry.now) c)) }
    ensures none { IfOk result (λ o. IfNone o
        (IsCommand (word_of service ∷ map (λ s. string_bytes s) rest.entry.now) → ⊥)) }
{
    let Some(options) = read_options(alloc, rest)? else {
        return Ok(None);
    };
    Ok(answer_with(service, &options))
}

/// The command of a service with these options.
fn answer_with<'a>(service: Service, options: &Options<'a>) -> Option<Command<'a>>
    ensures some { IfSome result (λ c. (rest : List (List ℕ)) → SpellOptions rest (values_in options.now)
        → Says (word_of service ∷ rest) c) }
    ensures none { IfNone result ((path : Option (List ℕ)) → values_in options.now ≡ file_alone path
        → IfSome path IsFile → ⊥) }
{
    if options.listen.is_some() || options.workers.is_some() || options.turns.is_some() {
        return None;
    }
    let file = stored_file(options.db)?;
    Some(Command::Answer { service, file })
}

/// Parses the words after `serve`.
fn serve_command<'a>(alloc: Global, rest: &'a [String]) -> Result<Option<Command<'a>>, NoMemory>
    ensures some { IfOk result (λ o. IfSome o (λ c.
        Says (codes "serve" ∷ map (λ s. string_bytes s) rest.entry.now) c)) }
    ensures none { IfOk result (λ o. IfNone o
        (IsCommand (codes "serve" ∷ map (λ s. string_bytes s) rest.entry.now) → ⊥)) }
{
    let Some(options) = read_options(alloc, rest)? else {
        return Ok(None);
    };
    Ok(serve_with(&options))
}

/// The command `serve` with these options.
fn serve_with<'a>(options: &Options<'a>) -> Option<Command<'a>>
    ensures some { IfSome result (λ c. (rest : List (List ℕ)) → SpellOptions rest (values_in options.now)
        → Says (codes "serve" ∷ rest) c) }
    ensures none { IfNone result ((address : List ℕ) (workers turns : ℕ) (path : Option (List ℕ))
        → values_in options.now ≡ values_to_serve address workers turns path
        → IsServing address workers turns path → ⊥) }
{
    let address = file_name(options.listen?)?;
    let workers = number_within(options.workers?, 1, u64::from(MOST_WORKERS))?;
    let turns = number_within(options.turns?, 1, MOST_TURNS)?;
    let file = stored_file(options.db)?;
    Some(Command::Serve {
        address,
        workers: workers as u32,
        turns,
        file,
    })
}

/// Parses the file of the tables, where one is given.
fn stored_file(word: Option<&str>) -> Option<Option<&str>>
    ensures some { IfSome result (λ f. (option_copied f ≡ option_copied word.entry) × IfSome (option_copied f) IsFile) }
    ensures none { IfNone result (IfSome (option_copied word.entry) IsFile → ⊥) }
{
    match word {
        None => Some(None),
        Some(name) => Some(Some(file_name(name)?)),
    }
}

/// Parses the name of a file, or an address: it is not empty and does not begin with a dash.
fn file_name(word: &str) -> Option<&str>
    ensures some { IfSome result (λ f. (f.now ≡ word.now) × IsFile word.now) }
    ensures none { IfNone result (IsFile word.now → ⊥) }
{
    if word.is_empty() || word.starts_with("-") {
        return None;
    }
    Some(word)
}

/// Parses the two words after `generate`.
fn generate_command<'a>(rest: &[String]) -> Option<Command<'a>>
    ensures some { IfSome result (λ c. Says (codes "generate" ∷ map (λ s. string_bytes s) rest.now) c) }
    ensures none { IfNone result (IsCommand (codes "generate" ∷ map (λ s. string_bytes s) rest.now) → ⊥) }
{
    let [seed, count] = rest else {
        return None;
    };
    let seed = number_within(seed.as_str(), 0, SEED_LIMIT)?;
    let count = number_within(count.as_str(), 1, u64::from(COUNT_LIMIT))?;
    Some(Command::Generate {
        seed,
        count: count as u32,
    })
}
