// How a script is cut into lines.
ghost use Rattle.std.specs.Prelude.{◌≡◌, ◌<◌, ◌∷◌, [], length};
ghost use Rattle.std.specs.Option.{MatchOption};
ghost use Rattle.fed_setup.specs.Scripts.{lines_parted, line_text, is_blank};

// The first line of a text, and what stands after its LF.
pub(crate) fn next_line(text: &str) -> (&str, Option<&str>)
    ensures { MatchOption result.1 (lines_parted text.now ≡ result.0.now ∷ [])
        (λ after. (lines_parted text.now ≡ result.0.now ∷ lines_parted after.now) × (length after.now < length text.now)) }
{
    match text.split_once('\n') {
        Some((line, after)) => (without_carriage_return(line), Some(after)),
        None => (without_carriage_return(text), None),
    }
}

// Drops the carriage return at the end of a line, if it has one.
fn without_carriage_return(line: &str) -> &str
    ensures { result.now ≡ line_text line.now }
{
    match line.strip_suffix('\r') {
        Some(front) => front,
        None => line,
    }
}

// Whether a line has spaces and TABs alone.
pub(crate) fn is_blank(line: &str) -> bool
    ensures { result ≡ is_blank line.now }
{
    line.as_bytes()
        .iter()
        .all(|byte| *byte == b' ' || *byte == b'\t')
}
