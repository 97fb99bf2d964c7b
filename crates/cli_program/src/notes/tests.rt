//! What no clause says: which place a note shows, and how.
use super::*;
use std::test::Fail;

/// Lines of refusals, and the offset that each names.
const REFUSALS: [(&str, Option<usize>); 3] = [
    ("!Refused Name at 19\n", Some(19)),
    ("!Refused\n", None),
    ("+x at y\n", None),
];

#[test]
fn offsets_of_refusals(rt: HostRuntime) {
    for (line, offset) in REFUSALS {
        assert_eq!(rt; offset_in(line.as_bytes()), offset, "{line}");
    }
}

/// Inputs, an offset in each, and the note on a refusal there: a short line, one of 80 bytes, and one of 100 that is cut behind
/// the place, on both sides of it, and before it.
const NOTES: [(&str, usize, &str); 5] = [
    (
        "(eio 1\n\t(main (take s)))\n; rest",
        20,
        "eio-run: refused at line 2, column 14\n.(main (take s)))\n             ^",
    ),
    (
        "01234567890123456789012345678901234567890123456789012345678901234567890123456789",
        3,
        "eio-run: refused at line 1, column 4\n01234567890123456789012345678901234567890123456789012345678901234567890123456789\n   ^",
    ),
    (
        "0123456789012345678901234567890123456789012345678901234567890123456789012345678901234567890123456789",
        3,
        "eio-run: refused at line 1, column 4\n01234567890123456789012345678901234567890123456789012345678901234567890123456789..\n   ^",
    ),
    (
        "0123456789012345678901234567890123456789012345678901234567890123456789012345678901234567890123456789",
        70,
        "eio-run: refused at line 1, column 71\n..01234567890123456789012345678901234567890123456789012345678901234567890123456789..\n                                                              ^",
    ),
    (
        "0123456789012345678901234567890123456789012345678901234567890123456789012345678901234567890123456789",
        95,
        "eio-run: refused at line 1, column 96\n..01234567890123456789012345678901234567890123456789012345678901234567890123456789\n                                                                             ^",
    ),
];

#[test]
fn notes_on_refusals(rt: HostRuntime) -> Result<(), Fail> {
    for (input, at, note) in NOTES {
        assert!(rt; at <= input.len() && input.len() <= MOST_READ);
        let shown = refusal_note(rt.alloc(), input.as_bytes(), at)?;
        assert_eq!(rt; shown.as_str(), note);
    }
    Ok(())
}
