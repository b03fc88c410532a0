// A line with its end.
ghost use Rattle.std.specs.Prelude.{◌≡◌};
ghost use Rattle.script.specs.Raw.{text_of_raw};

/// The text of a line that is given with its end: the LF is dropped, and one CR before it.
/// Where the LF is missing, as it may be at the end of the input, nothing is dropped.
pub fn line_text(raw: &[u8]) -> &[u8]
    ensures { result.now ≡ text_of_raw raw.now }
{
    match raw {
        [text @ .., b'\r', b'\n'] => text,
        [text @ .., b'\n'] => text,
        _ => raw,
    }
}
