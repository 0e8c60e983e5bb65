// Texts that a mark byte cuts into parts, as lines end by byte 10 and commas part fields.
// Calls tell where the first mark is, what stands before it and behind it, and how many marks there are.
// They read nothing outside the text and ask nothing of their caller.
#![tactic(auto)]

ghost use Rattle.marks.specs.Marks.{before, behind, marks_in, span_to};
ghost use Rattle.std.specs.Prelude.{◌≡◌, ◌<◌, ◌≤◌, length, MatchOption, position, ◌==◌};

/// The place of the first `mark`.
pub fn position(bytes: &[u8], mark: u8) -> Option<usize>
    ensures { result ≡ position (λ byte. byte == mark) bytes.now }
{
    bytes.iter().position(|byte| *byte == mark)
}

/// How many bytes stand before the first `mark`, all where there is none, so that no caller has to write that beside
/// `position`.
pub fn span(bytes: &[u8], mark: u8) -> usize
    ensures { result ≡ span_to mark bytes.now }
{
    position(bytes, mark).unwrap_or(bytes.len())
}

/// What stands before the first `mark` and what stands behind it.
pub fn split_once(bytes: &[u8], mark: u8) -> Option<(&[u8], &[u8])>
    ensures { MatchOption result (length bytes.now ≤ span_to mark bytes.now) (λ parts. (span_to mark bytes.now < length bytes.now) × (parts.0.now ≡ before mark bytes.now) × (parts.1.now ≡ behind mark bytes.now)) }
{
    let end = position(bytes, mark)?;
    Some((&bytes[..end], &bytes[end + 1..]))
}

/// How many marks there are.
pub fn count(bytes: &[u8], mark: u8) -> usize
    ensures value { result ≡ marks_in mark bytes.now }
    ensures bound { result ≤ length bytes.now }
{
    // A loop, since a filter that is counted takes nearly half as many instructions again.
    let mut marks = 0;
    for byte in bytes {
        if *byte == mark {
            marks += 1;
        }
    }
    marks
}
