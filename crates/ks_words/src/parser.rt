//! The commands as `clap` is told of them.
ghost use Rattle.std.specs.Prelude.{◌≡◌, ◌≤ℤ◌, ◌<◌, ◌^◌, ℕ, List, pos, true, false, IfOk, IfSome, option_map, unwrap_or, map, string_bytes};
ghost use Rattle.clap.specs.Words.{app_of, rule_of, is_simple_and_free};
ghost use Rattle.clap.specs.Matches.{first_value, found_of, one_text};
ghost use Rattle.ks_words.specs.Grammar.{is_number_in, number_of};
ghost use Rattle.ks_words.specs.Parser.{number_rule, switch_rule, plain_rule, text_rule, bare_app, common_app, run_app, load_app, ask_app, Finds};

use clap::error::ErrorKind;
use clap::{Arg, ArgAction, ArgMatches, Command};
use std::alloc::{AllocError, Global};

// The greatest start of a window, 2^53.
const GREATEST_START: i64 = 9_007_199_254_740_992;

// An option with a number.
fn number<'a>(alloc: Global, name: &'a str, low: i64, high: i64) -> Arg<'a>
    requires low { pos 0 ≤ℤ low }
    requires high { pos 0 ≤ℤ high }
    ensures rule { (m n : ℕ) → low ≡ pos m → high ≡ pos n → rule_of result
        ≡ number_rule name.entry.now m n }
    ensures local { result.global ≡ false }
{
    Arg::new(alloc, name)
        .long(name)
        .action(ArgAction::Set)
        .value_parser(clap::value_parser!(u64).range(low..=high))
}

// An option without a value.
fn switch<'a>(alloc: Global, name: &'a str) -> Arg<'a>
    ensures rule { rule_of result ≡ switch_rule name.entry.now }
    ensures local { result.global ≡ false }
{
    Arg::new(alloc, name).long(name).action(ArgAction::SetTrue)
}

// A number as a word of its own.
fn plain<'a>(alloc: Global, name: &'a str, low: i64, high: i64) -> Arg<'a>
    requires low { pos 0 ≤ℤ low }
    requires high { pos 0 ≤ℤ high }
    ensures rule { (m n : ℕ) → low ≡ pos m → high ≡ pos n → rule_of result
        ≡ plain_rule name.entry.now m n }
    ensures local { result.global ≡ false }
{
    Arg::new(alloc, name)
        .action(ArgAction::Set)
        .value_parser(clap::value_parser!(u64).range(low..=high))
        .required(true)
}

// A text as a word of its own.
fn text<'a>(alloc: Global, name: &'a str) -> Arg<'a>
    ensures rule { rule_of result ≡ text_rule name.entry.now }
    ensures local { result.global ≡ false }
{
    Arg::new(alloc, name).action(ArgAction::Set).required(true)
}

fn bare<'a>(alloc: Global, name: &'a str) -> Command<'a>
    ensures { app_of result ≡ bare_app name.entry.now }
{
    Command::new(alloc, name)
        .no_binary_name(true)
        .disable_help_flag(true)
        .disable_version_flag(true)
}

// A command with the options that all have.
fn common<'a>(alloc: Global, name: &'a str) -> Result<Command<'a>, AllocError>
    ensures { IfOk result (λ c. app_of c ≡ common_app name.entry.now) }
{
    bare(alloc, name)
        .arg(number(alloc, "instances", 1, 4))?
        .arg(number(alloc, "threads", 1, 4))?
        .arg(number(alloc, "standbys", 0, 3))?
        .arg(number(alloc, "commit-every", 1, 10_000))?
        .arg(number(alloc, "chaos", 0, i64::MAX))?
        .arg(number(alloc, "stop-after", 1, 1_000_000))?
        .arg(number(alloc, "cache", 0, 100_000))
}

/// `run` and its options.
pub(crate) fn run_parser<'a>(alloc: Global) -> Result<Command<'a>, AllocError>
    ensures { IfOk result (λ c. app_of c ≡ run_app) }
{
    common(alloc, "run")?.arg(switch(alloc, "journal"))
}

/// `load`, its number of orders and its options.
pub(crate) fn load_parser<'a>(alloc: Global) -> Result<Command<'a>, AllocError>
    ensures { IfOk result (λ c. app_of c ≡ load_app) }
{
    common(alloc, "load")?.arg(plain(alloc, "N", 1, 150_000))
}

/// `ask`, its node, its key and its options.
pub(crate) fn ask_parser<'a>(alloc: Global) -> Result<Command<'a>, AllocError>
    ensures { IfOk result (λ c. app_of c ≡ ask_app) }
{
    common(alloc, "ask")?
        .arg(number(alloc, "start", 0, GREATEST_START))?
        .arg(text(alloc, "NODE"))?
        .arg(text(alloc, "KEY"))
}

/// What the parser finds in the words, or nothing where it refuses them; want of memory is the one error.
pub(crate) fn find_matches<'a>(
    parser: Command<'a>,
    words: &'a [String],
) -> Result<Option<ArgMatches<'a>>, AllocError>
    requires { is_simple_and_free (app_of parser) ≡ true }
    ensures { IfOk result (Finds (app_of parser.entry) (map string_bytes words.entry.now)) }
{
    match parser.try_get_matches_from(words) {
        Ok(found) => Ok(Some(found)),
        Err(error) => match error.kind() {
            ErrorKind::OutOfMemory => Err(AllocError),
            _ => Ok(None),
        },
    }
}

/// A small number that was found, or else another.
pub(crate) fn small_or(found: &ArgMatches<'_>, name: &str, otherwise: u8) -> u8
    ensures { (low high : ℕ) → high < 2 ^ 8 → IfSome (one_text (found_of found.now) name.now)
        (λ t. is_number_in low high t ≡ true)
        → result ≡ unwrap_or (option_map number_of (one_text (found_of found.now) name.now))
        otherwise }
{
    found.get_one::<u8>(name).unwrap_or(otherwise)
}

/// A number that was found, or else another.
pub(crate) fn number_or(found: &ArgMatches<'_>, name: &str, otherwise: u32) -> u32
    ensures { (low high : ℕ) → high < 2 ^ 32 → IfSome (one_text (found_of found.now) name.now)
        (λ t. is_number_in low high t ≡ true)
        → result ≡ unwrap_or (option_map number_of (one_text (found_of found.now) name.now))
        otherwise }
{
    found.get_one::<u32>(name).unwrap_or(otherwise)
}

/// A text that was found.
pub(crate) fn text_in<'a>(found: &ArgMatches<'a>, name: &str) -> Option<&'a str>
    ensures { option_map (λ t. t.now) result ≡ first_value (found_of found.now) name.now }
{
    found.get_str(name)
}

/// A large number, if it was found.
pub(crate) fn large(found: &ArgMatches<'_>, name: &str) -> Option<u64>
    ensures { (low high : ℕ) → high < 2 ^ 64 → IfSome (one_text (found_of found.now) name.now)
        (λ t. is_number_in low high t ≡ true)
        → result ≡ option_map number_of (one_text (found_of found.now) name.now) }
{
    found.get_one::<u64>(name)
}
