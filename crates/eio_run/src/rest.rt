//! The words behind the first, where a command has no option.
//!
//! They are read by a simple command of `clap`, to which an option is one more argument. Hands are needed there too, since `clap` alone
//! doesn't say which words have a meaning. It lets `--` pass where nothing follows, so that is looked for before. And where it has no memory
//! it says nothing of the words, so they are read by hand then.
ghost use Rattle.std.specs.Prelude.{◌≡◌, ◌↔◌, [], codes, map, IsTrue};
ghost use Rattle.std.specs.List.{list_any};
ghost use Rattle.std.specs.Str.{bytes_eq};
ghost use Rattle.std.specs.String.{string_bytes};
ghost use Rattle.clap.specs.Words.{app_of, fault_of};
ghost use Rattle.eio_run.specs.Behind.{behind_app, EndsBy};

use clap::error::ErrorKind;
use std::alloc::Global;

/// Whether `--` is among the words. It has no meaning here, and `clap` lets it pass.
pub(crate) fn has_separator(words: &[String]) -> bool
    ensures { result ≡ list_any (λ word. bytes_eq (string_bytes word) (codes "--")) words.now }
{
    words.iter().any(|word| word.as_str() == "--")
}

/// What `clap` reads behind the first word: no option, and neither help nor version.
pub(crate) fn behind_command<'a>(alloc: Global) -> clap::Command<'a>
    ensures { app_of result ≡ behind_app }
{
    clap::Command::new(alloc, "eio-run")
        .no_binary_name(true)
        .disable_help_flag(true)
        .disable_version_flag(true)
}

/// Why `clap` refuses the words behind the first, if it does.
fn refusal_of(alloc: Global, rest: &[String]) -> Option<ErrorKind>
    ensures { EndsBy (fault_of behind_app (map string_bytes rest.now)) result }
{
    match behind_command(alloc).try_get_matches_from(rest) {
        Ok(_matches) => None,
        Err(error) => Some(error.kind()),
    }
}

/// Whether nothing stands behind the first word. `clap` says so, and where it has no memory a look at the words.
pub(crate) fn is_alone(alloc: Global, rest: &[String]) -> bool
    ensures { IsTrue result ↔ (rest.now ≡ []) }
{
    if has_separator(rest) {
        return false;
    }
    match refusal_of(alloc, rest) {
        None => true,
        Some(refusal) => match refusal {
            // It says nothing of the words, so they are read by hand.
            ErrorKind::OutOfMemory => rest.is_empty(),
            _ => false,
        },
    }
}
