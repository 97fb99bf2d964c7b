//! What the words of a command line ask for. The first word names the command and is read by hand; what is behind it, by the command.
ghost use Rattle.std.specs.Prelude.{◌≡◌, map};
ghost use Rattle.std.specs.String.{string_bytes};
ghost use Rattle.mock_backend.specs.Today.{built_today};
ghost use Rattle.spec_script.specs.Words as words;
ghost use Rattle.spec_script.specs.declared.Feature.TheVariants as feature;
ghost use Rattle.spec_script.specs.Words.{meaning};
ghost use Rattle.eio_run.specs.Words.{if_built, IsOfToday};

use crate::rest::is_alone;
use crate::steps::mock_words;
use spec_script::Command;
use std::alloc::Global;

/// The command that stands alone, where it belongs to reading.
fn lone_word(alloc: Global, command: Command, rest: &[String]) -> Option<Command>
    ensures means { result ≡ if_built (words.lone_word feature.Reading command (map string_bytes rest.now)) }
    ensures today { IsOfToday (Some command) → IsOfToday result }
{
    if is_alone(alloc, rest) {
        Some(command)
    } else {
        None
    }
}

/// The command that the words ask for, if they have a meaning.
pub(crate) fn command_of(alloc: Global, words: &[String]) -> Option<Command>
    ensures means { result ≡ meaning built_today (map string_bytes words.now) }
    ensures today { IsOfToday result }
{
    let [name, rest @ ..] = words else {
        return None;
    };
    match name.as_str() {
        "mock" => mock_words(alloc, rest),
        "check" => lone_word(alloc, Command::Check, rest),
        "print" => lone_word(alloc, Command::Print, rest),
        _ => None,
    }
}
