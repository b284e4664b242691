//! From the words of a command line to its command.
ghost use Rattle.std.specs.Prelude.{◌≡◌, List, IfOk, IfSome, is_some, codes, map, string_bytes};
ghost use Rattle.std.specs.List.{list_all, list_any};
ghost use Rattle.std.specs.Str.{bytes_eq};
ghost use Rattle.clap.specs.Matches.{found_of};
ghost use Rattle.ks_words.specs.Grammar.{Use, number_told, settings_of, words_of, command_of, run_command, load_command, is_name_byte, after_hyphen, node_of_word, key_of_word, ask_of, ask_with, ask_command, audit_command};
ghost use Rattle.ks_words.specs.Parser.{Tells, TellsAsk};
ghost use Rattle.ks_words.specs.Ranges.{HasRanges, IsWithin};

use crate::command::Command;
use crate::parser::{
    ask_parser, find_matches, large, load_parser, number_or, run_parser, small_or, text_in,
};
use crate::settings::Settings;
use clap::ArgMatches;
use ks_record::{Key, Name};
use std::alloc::{AllocError, Global};

// clap takes a word `--` as the end of the options.
fn has_end_of_options(words: &[String]) -> bool
    ensures { result ≡ list_any (λ w. bytes_eq w (codes "--")) (words_of words.now) }
{
    let mut rest = words;
    while let [word, more @ ..] = rest {
        if word.as_str() == "--" {
            return true;
        }
        rest = more;
    }
    false
}

fn settings(found: &ArgMatches<'_>) -> Settings
    ensures told { (us : List Use) → Tells (found_of found.now) us → result ≡ settings_of us }
    ensures within { (us : List Use) → Tells (found_of found.now) us → HasRanges result }
{
    Settings {
        instances: small_or(found, "instances", 1),
        threads: small_or(found, "threads", 1),
        standbys: small_or(found, "standbys", 0),
        interval: number_or(found, "commit-every", 100),
        chaos: large(found, "chaos"),
        stop: large(found, "stop-after"),
        cache: number_or(found, "cache", 0),
        journal: found.get_flag("journal"),
    }
}

#[tactic(auto, using(crate::proofs::Found::run_of_dashes))]
fn read_run(alloc: Global, words: &[String]) -> Result<Option<Command>, AllocError>
    ensures told { IfOk result (λ c. c ≡ run_command (words_of words.now)) }
    ensures within { IfOk result (λ c. IfSome c IsWithin) }
{
    if has_end_of_options(words) {
        return Ok(None);
    }
    let Some(found) = find_matches(run_parser(alloc)?, words)? else {
        return Ok(None);
    };
    Ok(Some(Command::Run(settings(&found))))
}

#[tactic(auto, using(crate::proofs::Found::load_of_dashes))]
fn read_load(alloc: Global, words: &[String]) -> Result<Option<Command>, AllocError>
    ensures told { IfOk result (λ c. c ≡ load_command (words_of words.now)) }
    ensures within { IfOk result (λ c. IfSome c IsWithin) }
{
    if has_end_of_options(words) {
        return Ok(None);
    }
    let Some(found) = find_matches(load_parser(alloc)?, words)? else {
        return Ok(None);
    };
    let orders = number_or(&found, "N", 0);
    Ok(Some(Command::Load(orders, settings(&found))))
}

fn is_name_byte(byte: u8) -> bool
    ensures { result ≡ is_name_byte byte }
{
    byte.is_ascii_alphanumeric() || byte == b'_'
}

// Whether all of them are letters, digits and `_`.
fn are_name_bytes(bytes: &[u8]) -> bool
    ensures { result ≡ list_all is_name_byte bytes.now }
{
    bytes.iter().all(|byte| is_name_byte(*byte))
}

// Whether a word begins with a hyphen.
fn has_hyphen(word: &str) -> bool
    ensures { result ≡ is_some (after_hyphen word.now) }
{
    match word.as_bytes().first() {
        Some(byte) => *byte == b'-',
        None => false,
    }
}

// The name of a node, where a word is one: 1 to 64 letters, digits and `_`.
fn node_in(alloc: Global, word: &str) -> Result<Option<Name>, AllocError>
    ensures { IfOk result (λ n. n ≡ node_of_word word.now) }
{
    let bytes = word.as_bytes();
    if !are_name_bytes(bytes) {
        return Ok(None);
    }
    Name::of(alloc, bytes)
}

// A key, where a word is one that doesn't begin with a hyphen.
fn key_in(alloc: Global, word: &str) -> Result<Option<Key>, AllocError>
    ensures { IfOk result (λ k. k ≡ key_of_word word.now) }
{
    if has_hyphen(word) {
        return Ok(None);
    }
    Key::of(alloc, word.as_bytes())
}

// The question for a node and a key, where the words are ones.
fn ask_for(
    alloc: Global,
    found: &ArgMatches<'_>,
    node: &str,
    key: &str,
) -> Result<Option<Command>, AllocError>
    ensures told { (us : List Use) → TellsAsk (found_of found.now) us
        → IfOk result (λ c. c ≡ ask_with us (node_of_word node.now) (key_of_word key.now)) }
    ensures within { (us : List Use) → TellsAsk (found_of found.now) us
        → IfOk result (λ c. IfSome c IsWithin) }
{
    let Some(node) = node_in(alloc, node)? else {
        return Ok(None);
    };
    let Some(key) = key_in(alloc, key)? else {
        return Ok(None);
    };
    Ok(Some(Command::Ask {
        node,
        key,
        start: large(found, "start"),
        settings: settings(found),
    }))
}

// The question that the words ask.
fn ask_in(alloc: Global, found: &ArgMatches<'_>) -> Result<Option<Command>, AllocError>
    ensures told { (us : List Use) → TellsAsk (found_of found.now) us
        → IfOk result (λ c. c ≡ ask_of us) }
    ensures within { (us : List Use) → TellsAsk (found_of found.now) us
        → IfOk result (λ c. IfSome c IsWithin) }
{
    let Some(node) = text_in(found, "NODE") else {
        return Ok(None);
    };
    let Some(key) = text_in(found, "KEY") else {
        return Ok(None);
    };
    ask_for(alloc, found, node, key)
}

#[tactic(auto, using(crate::proofs::Found::ask_of_dashes))]
fn read_ask(alloc: Global, words: &[String]) -> Result<Option<Command>, AllocError>
    ensures told { IfOk result (λ c. c ≡ ask_command (words_of words.now)) }
    ensures within { IfOk result (λ c. IfSome c IsWithin) }
{
    if has_end_of_options(words) {
        return Ok(None);
    }
    let Some(found) = find_matches(ask_parser(alloc)?, words)? else {
        return Ok(None);
    };
    ask_in(alloc, &found)
}

// `audit` is a word alone.
fn read_audit(words: &[String]) -> Option<Command>
    ensures told { result ≡ audit_command (words_of words.now) }
    ensures within { IfSome result IsWithin }
{
    match words {
        [] => Some(Command::Audit),
        [_, ..] => None,
    }
}

/// The command that the words after the program's name name, or `None` exactly where they aren't in the grammar:
///
/// ```text
/// words  = "run" option*  |  "load" N option*  |  "ask" NODE KEY option*  |  "audit"
/// option = ("--instances" | "--threads" | "--standbys" | "--commit-every" | "--chaos" | "--stop-after" | "--start" | "--cache") value
///        | "--journal"
/// value  = the next word, or "=" and a text in the same word
/// ```
///
/// Options, N, NODE and KEY come in any order, NODE before KEY, each option at most once. Only `run` has `--journal`, and only `ask`
/// `--start`. A number is what `u64::from_str` reads. NODE has 1 to 64 letters, digits and `_`; KEY is a key that doesn't begin with `-`.
///
/// | Word | Range | Where absent |
/// |---|---|---|
/// | `--instances`, `--threads` | 1 to 4 | 1 |
/// | `--standbys` | 0 to 3 | 0 |
/// | `--commit-every` | 1 to 10,000 | 100 |
/// | `--chaos` | 0 to 9,223,372,036,854,775,807 | no seed |
/// | `--stop-after` | 1 to 1,000,000 | no limit |
/// | `--cache` | 0 to 100,000 | 0 |
/// | `--start` | 0 to 9,007,199,254,740,992 | no start |
/// | N | 1 to 150,000 | |
///
/// Want of memory is the one error.
pub fn read_words(alloc: Global, words: &[String]) -> Result<Option<Command>, AllocError>
    ensures told { IfOk result (λ c. c ≡ command_of (words_of words.now)) }
    ensures within { IfOk result (λ c. IfSome c IsWithin) }
{
    let [name, rest @ ..] = words else {
        return Ok(None);
    };
    match name.as_str() {
        "run" => read_run(alloc, rest),
        "load" => read_load(alloc, rest),
        "ask" => read_ask(alloc, rest),
        "audit" => Ok(read_audit(rest)),
        _ => Ok(None),
    }
}
