//! Laws of scripts that run on one mocked domain and on several.

ghost use Rattle.law_history.specs.Both.Both.{MockRunsOfBothAreLegal, RunsOfBothAreOfDomains};

/// Where both `mock` and `domains` run the script of an input, a run of it on one mocked domain asks nothing of the mocked
/// outside and calls only declared objects, and no timer stands at its end.
pub fn runs_of_both_are_of_domains()
    ensures { RunsOfBothAreOfDomains }
{}

/// There each run on one mocked domain is a legal history of the script: the lines are those of the moves, the domain and
/// all that is shared end as they do in the run, and both have the same ending.
pub fn mock_runs_of_both_are_legal()
    ensures { MockRunsOfBothAreLegal }
{}
