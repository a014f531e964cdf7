//! Marks of one and two bytes.

ghost use Rattle.std.specs.Prelude.{◌≡◌};
ghost use Rattle.med_lexer.specs.Cutting as cutting;

use crate::Mark;

/// The mark that is this byte.
pub fn single(b: u8) -> Option<Mark>
    ensures { result ≡ cutting.single b }
{
    match b {
        b'(' => Some(Mark::LeftParen),
        b')' => Some(Mark::RightParen),
        b',' => Some(Mark::Comma),
        b'.' => Some(Mark::Dot),
        b';' => Some(Mark::Semicolon),
        b'*' => Some(Mark::Star),
        b'+' => Some(Mark::Plus),
        b'-' => Some(Mark::Minus),
        b'/' => Some(Mark::Slash),
        b'%' => Some(Mark::Percent),
        b'=' => Some(Mark::Equal),
        b'<' => Some(Mark::Below),
        b'>' => Some(Mark::Above),
        _ => None,
    }
}

/// The mark that is these two bytes.
pub fn double(b: u8, c: u8) -> Option<Mark>
    ensures { result ≡ cutting.double b c }
{
    if b == b'<' && c == b'>' {
        Some(Mark::Apart)
    } else if b == b'<' && c == b'=' {
        Some(Mark::AtMost)
    } else if b == b'>' && c == b'=' {
        Some(Mark::AtLeast)
    } else if b == b'!' && c == b'=' {
        Some(Mark::Apart)
    } else {
        None
    }
}
