//! The values of options.
ghost use Rattle.std.specs.Prelude.{◌≡◌, ◌≤◌, IfSome, codes, map, true};
ghost use Rattle.std.specs.Char.{is_ascii_digit};
ghost use Rattle.std.specs.List.{list_all};
ghost use Rattle.pm_args.specs.Jobs.{number_within, class_named, start_named, bound_named, options_of, value_or, gives_any};
ghost use Rattle.pm_args.specs.Words.{Reading, is_among, option_names, value_of};
ghost use Rattle.pm_args.specs.Inside.Found.{HasRead};

use crate::job::Options;
use clap::ArgMatches;
use pm_logic::{BoundKind, Class, Start};

/// The number that the text is, where it is one to thirteen digits and from `least` to `most`.
pub fn number_within(text: &str, least: u64, most: u64) -> Option<u64>
    ensures { result ≡ number_within least most text.now }
{
    if text.is_empty() || text.len() > 13 || !is_digits(text.as_bytes()) {
        return None;
    }
    let number: u64 = text.parse().ok()?;
    if least <= number && number <= most {
        Some(number)
    } else {
        None
    }
}

// Whether each byte is a digit.
fn is_digits(text: &[u8]) -> bool
    ensures { result ≡ list_all is_ascii_digit text.now }
{
    text.iter().all(|byte| byte.is_ascii_digit())
}

fn class_named(text: &str) -> Option<Class>
    ensures { result ≡ class_named text.now }
{
    match text {
        "plain" => Some(Class::Plain),
        "regular" => Some(Class::Regular),
        _ => None,
    }
}

fn start_named(text: &str) -> Option<Start>
    ensures { result ≡ start_named text.now }
{
    match text {
        "negative" => Some(Start::Negative),
        "all" => Some(Start::All),
        "goal" => Some(Start::Goal),
        _ => None,
    }
}

fn bound_named(text: &str) -> Option<BoundKind>
    ensures { result ≡ bound_named text.now }
{
    match text {
        "depth" => Some(BoundKind::Depth),
        "inferences" => Some(BoundKind::Inferences),
        _ => None,
    }
}

// The number that an option says, or the default.
fn number_of(
    matches: &ArgMatches<'_>,
    name: &str,
    least: u64,
    most: u64,
    default: u64,
) -> Option<u64>
    requires name { is_among option_names name.now ≡ true }
    requires default { default ≤ most }
    ensures value { (r : Reading) → HasRead matches.now r
        → result ≡ value_or (number_within least most) default (value_of name.now r) }
    ensures most { IfSome result (λ number. number ≤ most) }
{
    match matches.get_str(name) {
        Some(text) => number_within(text, least, most),
        None => Some(default),
    }
}

fn class_of(matches: &ArgMatches<'_>) -> Option<Class>
    ensures { (r : Reading) → HasRead matches.now r
        → result ≡ value_or class_named Class.Plain (value_of (codes "class") r) }
{
    match matches.get_str("class") {
        Some(text) => class_named(text),
        None => Some(Class::Plain),
    }
}

fn start_of(matches: &ArgMatches<'_>) -> Option<Start>
    ensures { (r : Reading) → HasRead matches.now r
        → result ≡ value_or start_named Start.Negative (value_of (codes "start") r) }
{
    match matches.get_str("start") {
        Some(text) => start_named(text),
        None => Some(Start::Negative),
    }
}

fn bound_of(matches: &ArgMatches<'_>) -> Option<BoundKind>
    ensures { (r : Reading) → HasRead matches.now r
        → result ≡ value_or bound_named BoundKind.Depth (value_of (codes "bound") r) }
{
    match matches.get_str("bound") {
        Some(text) => bound_named(text),
        None => Some(BoundKind::Depth),
    }
}

/// The options, where each value that is given is one of its option's.
pub fn options_of(matches: &ArgMatches<'_>) -> Option<Options>
    ensures { (r : Reading) → HasRead matches.now r → result ≡ options_of r }
{
    let depth = number_of(matches, "depth", 0, 250, 30)?;
    let budget = number_of(matches, "budget", 1, 1_000_000_000_000, 1_000_000)?;
    let workers = number_of(matches, "workers", 1, 64, 4)?;
    Some(Options {
        depth: depth as u32,
        budget,
        workers: workers as u16,
        class: class_of(matches)?,
        start: start_of(matches)?,
        bound: bound_of(matches)?,
    })
}

/// Whether a value is given for one of these options.
pub fn gives_any(matches: &ArgMatches<'_>, names: &[&str]) -> bool
    requires { list_all (is_among option_names) (map (λ name. name.now) names.now) ≡ true }
    ensures { (r : Reading) → HasRead matches.now r
        → result ≡ gives_any (map (λ name. name.now) names.now) r }
{
    names.iter().any(|name| matches.get_str(*name).is_some())
}
