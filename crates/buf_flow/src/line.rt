//! What of a line is given.
ghost use Rattle.std.specs.Prelude.{◌≡◌, ◌≤◌, length, take};
ghost use Rattle.spec_parts.specs.BytesToCome.{without_cr};

/// How many bytes of a line are given: all but the one CR that may stand at its end.
pub(crate) fn line_len(line: &[u8]) -> usize
    ensures within { result ≤ length line.now }
    ensures given { take result line.now ≡ without_cr line.now }
{
    if line.is_empty() {
        return 0;
    }
    let last = line.len() - 1;
    if line[last] == b'\r' {
        last
    } else {
        line.len()
    }
}
