//! The grammar of a request line.
//!
//! A line is `SID OPEN USER`, `SID Q SQL` or `SID BYE`, with one space between two parts. SID is a
//! session's number, 1 to 256, in decimal with no leading zeros; the verbs are in upper case; SQL is any
//! text, also the empty one.
ghost use Rattle.std.specs.Prelude.{◌≡◌, ◌≢◌, ◌+◌, ◌*◌, ◌<◌, ◌≤◌, ℕ, List, IfSome, IfNone, IfOk, IfErr};
ghost use Rattle.std.specs.Fmt.{decimal};
ghost use Rattle.med_session.specs.Prelude.{asked, AskedLine, IsSid};
ghost use Rattle.session_wire.specs.Frames.{IsRequest, IsFrame, IsReplySid};

use med_session::users::is_user;
use med_session::{Request, Sid};
use thiserror::Error;

/// A line that is not in the grammar, answered by 08P01 protocol_violation.
#[derive(Clone, Copy, Debug, PartialEq, Eq, Error)]
#[error("protocol violation")]
pub struct BadFrame {
    /// The number that the reply begins with: that of the line, if it begins with a session's number
    /// and a space, else 0.
    pub sid: u16,
}

/// Reads a line. It is refused only where it is not in the grammar.
pub fn frame(text: &str) -> Result<(Sid, Request<'_>), BadFrame>
    ensures ok { IfOk result (λ read. IsFrame text.now read.0.number (asked read.1)) }
    ensures bad { IfErr result (λ _.
        (sid : ℕ) (request : AskedLine) → IsFrame text.now sid request → ⊥) }
    ensures sid { IfErr result (λ bad. IsReplySid text.now bad.sid) }
{
    let Some((number, after)) = text.split_once(' ') else {
        return Err(BadFrame { sid: 0 });
    };
    let Some(sid) = sid_of(number.as_bytes()) else {
        return Err(BadFrame { sid: 0 });
    };
    match request_of(after) {
        Some(request) => Ok((sid, request)),
        None => Err(BadFrame { sid: sid.number }),
    }
}

/// A text is at most one line, and the reply to one that is none begins with one number alone.
pub fn frames_are_unique()
    ensures frame { (text : List ℕ) (m n : ℕ) (p q : AskedLine)
        → IsFrame text m p → IsFrame text n q → (m ≡ n) × (p ≡ q) }
    ensures sid { (text : List ℕ) (m n : ℕ) → IsReplySid text m → IsReplySid text n → m ≡ n }
{}

// The session of these digits.
fn sid_of(digits: &[u8]) -> Option<Sid>
    ensures some { IfSome result (λ sid. digits.now ≡ decimal sid.number) }
    ensures none { IfNone result ((n : ℕ) → IsSid n → digits.now ≢ decimal n) }
{
    let number = number_of(digits)?;
    Sid::new(number)
}

// The number below 1,000 of these digits, with no leading zero.
fn number_of(digits: &[u8]) -> Option<u16>
    ensures some { IfSome result (λ n. digits.now ≡ decimal n) }
    ensures none { IfNone result ((n : ℕ) → n < 1000 → digits.now ≢ decimal n) }
{
    if digits.len() == 1 {
        one_digit(digits[0])
    } else if digits.len() == 2 {
        two_digits(digits[0], digits[1])
    } else if digits.len() == 3 {
        three_digits(digits[0], digits[1], digits[2])
    } else {
        None
    }
}

// The number of this digit.
fn one_digit(unit: u8) -> Option<u16>
    ensures some { IfSome result (λ n. (n < 10) × (unit ≡ 48 + n)) }
    ensures none { IfNone result ((n : ℕ) → n < 10 → unit ≢ 48 + n) }
{
    if unit < b'0' || b'9' < unit {
        return None;
    }
    Some(u16::from(unit - b'0'))
}

// The number of these two digits, with no leading zero.
fn two_digits(ten: u8, unit: u8) -> Option<u16>
    ensures some { IfSome result (λ n. (t : ℕ) × (u : ℕ) × (1 ≤ t) × (t < 10) × (u < 10)
        × (n ≡ 10 * t + u) × (ten ≡ 48 + t) × (unit ≡ 48 + u)) }
    ensures none { IfNone result ((t u : ℕ) → 1 ≤ t → t < 10 → u < 10 → ten ≡ 48 + t → unit ≡ 48 + u → ⊥) }
{
    if ten < b'1' || b'9' < ten || unit < b'0' || b'9' < unit {
        return None;
    }
    Some(u16::from(ten - b'0') * 10 + u16::from(unit - b'0'))
}

// The number of these three digits, with no leading zero.
fn three_digits(hundred: u8, ten: u8, unit: u8) -> Option<u16>
    ensures some { IfSome result (λ n. (h : ℕ) × (t : ℕ) × (u : ℕ) × (1 ≤ h) × (h < 10) × (t < 10) × (u < 10)
        × (n ≡ 100 * h + 10 * t + u) × (hundred ≡ 48 + h) × (ten ≡ 48 + t) × (unit ≡ 48 + u)) }
    ensures none { IfNone result ((h t u : ℕ) → 1 ≤ h → h < 10 → t < 10 → u < 10
        → hundred ≡ 48 + h → ten ≡ 48 + t → unit ≡ 48 + u → ⊥) }
{
    if hundred < b'1' || b'9' < hundred || ten < b'0' || b'9' < ten || unit < b'0' || b'9' < unit {
        return None;
    }
    Some(u16::from(hundred - b'0') * 100 + u16::from(ten - b'0') * 10 + u16::from(unit - b'0'))
}

// What stands behind the number and its space.
fn request_of(text: &str) -> Option<Request<'_>>
    ensures some { IfSome result (λ request. IsRequest text.now (asked request)) }
    ensures none { IfNone result ((request : AskedLine) → IsRequest text.now request → ⊥) }
{
    if let Some(query) = text.strip_prefix("Q ") {
        return Some(Request::Sql(query));
    }
    if let Some(user) = text.strip_prefix("OPEN ") {
        return if is_user(user) {
            Some(Request::Open(user))
        } else {
            None
        };
    }
    if text == "BYE" {
        Some(Request::Bye)
    } else {
        None
    }
}
