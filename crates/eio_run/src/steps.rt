//! The option of `mock`: how many moves a run makes.
//!
//! `clap` reads the option's text, `--steps N` or `--steps=N`. What number the text spells is read by hand, since a number begins with
//! neither a plus nor a zero here. Where `clap` has no memory it says nothing of the words, so they are read by hand then.
ghost use Rattle.std.specs.Prelude.{◌≡◌, false, not, ◌<◌, ◌≤◌, IfSome, map, option_map};
ghost use Rattle.std.specs.String.{string_bytes};
ghost use Rattle.clap.specs.Words.{rule_of};
ghost use Rattle.spec_script.specs.Limits.{most_steps};
ghost use Rattle.spec_script.specs.Words as words;
ghost use Rattle.spec_script.specs.Words.{number_of};
ghost use Rattle.eio_run.specs.Steps.{steps_rule, asked_with, has_first_digit, ReadsText};
ghost use Rattle.eio_run.specs.Words.{if_built, IsOfToday};

use crate::rest::{behind_command, has_separator};
use clap::error::ErrorKind;
use clap::{Arg, ArgAction};
use spec_script::Command;
use std::alloc::Global;

/// The most moves that a run makes, and how many it makes where the words don't say less.
const MOST_STEPS: u32 = 1_000_000;

/// Whether the first byte is none of `1` to `9`, so that a number from 1 on doesn't begin so.
fn lacks_first_digit(bytes: &[u8]) -> bool
    ensures { result ≡ not (has_first_digit bytes.now) }
{
    !matches!(bytes, [b'1'..=b'9', ..])
}

/// The number that a text spells, if it is one from 1 to the most moves.
fn steps_in(text: &str) -> Option<u32>
    ensures value { result ≡ number_of most_steps text.now }
    ensures within { IfSome result (λ n. (0 < n) × (n ≤ most_steps)) }
{
    // `parse` takes a plus and zeros in front of a number too.
    if lacks_first_digit(text.as_bytes()) {
        return None;
    }
    match text.parse::<u32>() {
        Ok(steps) => {
            if steps <= MOST_STEPS {
                Some(steps)
            } else {
                None
            }
        }
        Err(_) => None,
    }
}

/// What `mock` is asked for by this text of its option, or without the option.
fn mock_with(text: Option<&str>) -> Option<Command>
    ensures means { result ≡ if_built (asked_with (option_map (λ s. s.now) text.entry)) }
    ensures today { IsOfToday result }
{
    match text {
        None => Some(Command::Mock(MOST_STEPS)),
        Some(text) => Some(Command::Mock(steps_in(text)?)),
    }
}

/// The option as `clap` knows it. Its value stays a text.
fn steps_option<'a>(alloc: Global) -> Arg<'a>
    ensures rule { rule_of result ≡ steps_rule }
    ensures local { result.global ≡ false }
{
    Arg::new(alloc, "steps")
        .long("steps")
        .action(ArgAction::Set)
}

/// The text that the words behind `mock` give the option, if they have it; or why `clap` refuses them.
fn text_in<'a>(alloc: Global, rest: &'a [String]) -> Result<Option<&'a str>, ErrorKind>
    ensures { ReadsText (map string_bytes rest.entry.now) result }
{
    let Ok(command) = behind_command(alloc).arg(steps_option(alloc)) else {
        return Err(ErrorKind::OutOfMemory);
    };
    match command.try_get_matches_from(rest) {
        Ok(matches) => Ok(matches.get_str("steps")),
        Err(error) => Err(error.kind()),
    }
}

/// What `mock` and the words behind it ask for, read by hand.
fn mock_by_hand(rest: &[String]) -> Option<Command>
    ensures means { result ≡ if_built (words.mock_words (map string_bytes rest.now)) }
    ensures today { IsOfToday result }
{
    match rest {
        [] => mock_with(None),
        [word] => mock_with(Some(word.strip_prefix("--steps=")?)),
        [word, text] if word.as_str() == "--steps" => mock_with(Some(text.as_str())),
        _ => None,
    }
}

/// What `mock` and the words behind it ask for.
pub(crate) fn mock_words(alloc: Global, rest: &[String]) -> Option<Command>
    ensures means { result ≡ if_built (words.mock_words (map string_bytes rest.now)) }
    ensures today { IsOfToday result }
{
    if has_separator(rest) {
        return None;
    }
    match text_in(alloc, rest) {
        Ok(text) => mock_with(text),
        Err(refusal) => match refusal {
            // It says nothing of the words, so they are read by hand.
            ErrorKind::OutOfMemory => mock_by_hand(rest),
            _ => None,
        },
    }
}
