//! The words as one flat command: its options, and its plain words.
ghost use Rattle.std.specs.Prelude.{◌≡◌, ◌≢◌, IfOk, MatchResult, None, false, map, string_bytes};
ghost use Rattle.std.specs.List.{list_any};
ghost use Rattle.clap.specs.Words.{app_of, kind_of, rule_of};
ghost use Rattle.clap.specs.declared.error.kind.ErrorKind.TheVariants.{OutOfMemory};
ghost use Rattle.pm_args.specs.Words.{reading_of};
ghost use Rattle.pm_args.specs.Inside.Flat.{flat_app, option_rule};
ghost use Rattle.pm_args.specs.Inside.Found.{IsReadFrom, is_stray};

use crate::job::ArgsFault;
use clap::error::ErrorKind;
use clap::{Arg, ArgAction, ArgMatches, Command, Error};
use std::alloc::{AllocError, Global};

/// The id of the plain words.
pub const PLAIN_WORDS: &str = "words";

// An option with one value, by its name.
fn option<'a>(alloc: Global, name: &'a str) -> Arg<'a>
    ensures rule { rule_of result ≡ option_rule name.entry.now }
    ensures local { result.global ≡ false }
{
    Arg::new(alloc, name).long(name).action(ArgAction::Set)
}

// The flat command. It has no help, no version and no subcommands.
fn command<'a>(alloc: Global) -> Result<Command<'a>, AllocError>
    ensures { IfOk result (λ command. app_of command ≡ flat_app) }
{
    Command::new(alloc, "parmel")
        .no_binary_name(true)
        .disable_help_flag(true)
        .disable_version_flag(true)
        .arg(option(alloc, "depth"))?
        .arg(option(alloc, "budget"))?
        .arg(option(alloc, "workers"))?
        .arg(option(alloc, "class"))?
        .arg(option(alloc, "start"))?
        .arg(option(alloc, "bound"))?
        .arg(Arg::new(alloc, PLAIN_WORDS).action(ArgAction::Append))
}

// Whether the word begins with a hyphen but not with two and a name: these are bad words wherever
// they stand, and the parse doesn't see them.
fn is_stray(word: &str) -> bool
    ensures { result ≡ is_stray word.now }
{
    match word.as_bytes() {
        [b'-', b'-', _, ..] => false,
        [b'-', ..] => true,
        _ => false,
    }
}

// Whether one of the words is such a word.
fn has_stray(words: &[String]) -> bool
    ensures { result ≡ list_any (λ word. is_stray (string_bytes word)) words.now }
{
    words.iter().any(|word| is_stray(word.as_str()))
}

// Why a parse failed: memory ran out, or the words aren't the command's.
fn cause_of(error: &Error) -> ArgsFault
    ensures { result ≡ ArgsFault.BadWords → kind_of error.now ≢ OutOfMemory }
{
    if error.kind() == ErrorKind::OutOfMemory {
        ArgsFault::Memory
    } else {
        ArgsFault::BadWords
    }
}

/// What the words give for each option, and the plain words among them.
pub fn parse<'a>(alloc: Global, words: &'a [String]) -> Result<ArgMatches<'a>, ArgsFault>
    ensures { MatchResult result
        (IsReadFrom (map string_bytes words.entry.now))
        (λ fault. fault ≡ ArgsFault.BadWords
        → reading_of (map string_bytes words.entry.now) ≡ None) }
{
    if has_stray(words) {
        return Err(ArgsFault::BadWords);
    }
    match command(alloc)?.try_get_matches_from(words) {
        Ok(matches) => Ok(matches),
        Err(error) => Err(cause_of(&error)),
    }
}
