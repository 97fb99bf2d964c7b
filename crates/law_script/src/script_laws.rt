//! Laws of scripts and their reading.

ghost use Rattle.law_script.specs.Scripts.Generated.{GeneratedAreScripts};
ghost use Rattle.law_script.specs.Scripts.Meanings.{PlacesDontCount};
ghost use Rattle.law_script.specs.Scripts.Printing.{PrintIsReadAgain, PrintStandsForTheScript};
ghost use Rattle.law_script.specs.Scripts.Readings.{DomainScriptsAreShared, InputScriptsAreSound, MockedScriptsAreSound};
ghost use Rattle.law_script.specs.Scripts.Readings.{ReadScriptsAreSound, SharedScriptsHaveNoMockedForm};

/// A script that is read is sound: each name stands for what its place wants, and each number is within its limits. Of a
/// tree its numbers have to fit into 64 bits, as those of each tree do that is read from bytes. What `mock` runs has one
/// body.
pub fn read_scripts_are_sound()
    ensures trees { ReadScriptsAreSound }
    ensures inputs { InputScriptsAreSound }
    ensures mocked { MockedScriptsAreSound }
{}

/// A script of which no form is refused as one for the mocked domain alone has no clock, no flow and no path, in whatever
/// depth. Such a one is what `domains` runs.
pub fn shared_scripts_have_no_mocked_form()
    ensures trees { SharedScriptsHaveNoMockedForm }
    ensures domains { DomainScriptsAreShared }
{}

/// Trees that are the same but for their places stand for the same script, places aside, or are both refused for the same
/// reason.
pub fn places_dont_count()
    ensures { PlacesDontCount }
{}

/// What `print` writes for a script spells a tree that stands for that script, places aside. Where it has at most 262,144
/// bytes, it is an input: it is read as that script, places aside, and printed as the same bytes.
pub fn print_reads_again()
    ensures stands { PrintStandsForTheScript }
    ensures kept { PrintIsReadAgain }
{}

/// The tree of the generator stands for a script, of however many forks.
pub fn generated_is_a_script()
    ensures { GeneratedAreScripts }
{}
