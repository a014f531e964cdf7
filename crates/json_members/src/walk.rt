//! Values passed over, checked as `serde_json` checks them.
ghost use Rattle.std.specs.Prelude.{◌≡◌, ◌<◌, length, Some, None, IfOk, OnOk, OnErr};
ghost use Rattle.json.specs.Json.{value, items, members};
ghost use Rattle.serde_json.specs.Data.{Data, Items, Members, no_members};
ghost use Rattle.serde_json.specs.Read.{of_json, of_items, of_members, converted};
ghost use Rattle.json_members.specs.Seen.{seen, of_number};
ghost use Rattle.json_members.specs.Scalars.{seen_of};

use crate::numbers::read_number;
use crate::scalar::Scalar;
use json::{Invalid, Reader, Token};

/// What is noted of a number, by its `as_i64`.
fn number_scalar<'a>(number: Option<i64>) -> Scalar<'a>
    ensures { seen_of result ≡ of_number number }
{
    match number {
        Some(n) => Scalar::Whole(n),
        None => Scalar::Real,
    }
}

/// Takes one value, and returns what is noted of it. Fails where `serde_json` reads none, with up to `depth` levels of nesting.
#[cycle(take)]
#[inline(always)]
pub(crate) fn take_value<'a>(reader: &mut Reader<'a>, depth: usize) -> Result<Scalar<'a>, Invalid>
    ensures ok { IfOk result (λ s. (d : Data) × (converted of_json (value depth reader.old) ≡ Some (d, reader.new))
        × (seen_of s ≡ seen d)) }
    ensures shorter { OnOk result (length reader.new < length reader.old) }
    ensures err { OnErr result (converted of_json (value depth reader.old) ≡ None) }
{
    let token = reader.next().ok_or(Invalid)?;
    match token {
        Token::String(text) => Ok(Scalar::Text(text)),
        Token::Number(text) => match read_number(text) {
            Some(number) => Ok(number_scalar(number)),
            None => Err(Invalid),
        },
        Token::Bool(truth) => Ok(Scalar::Bool(truth)),
        Token::Null => Ok(Scalar::Null),
        Token::EndObject | Token::EndArray | Token::Key(_) | Token::Bad => Err(Invalid),
        Token::BeginArray => {
            if depth == 0 {
                return Err(Invalid);
            }
            pass_items(reader, depth - 1)?;
            Ok(Scalar::Nested)
        }
        Token::BeginObject => {
            if depth == 0 {
                return Err(Invalid);
            }
            pass_members(reader, depth - 1)?;
            Ok(Scalar::Nested)
        }
    }
}

/// Passes over the items of an array up to its end.
#[cycle(take)]
#[inline(never)]
fn pass_items(reader: &mut Reader<'_>, depth: usize) -> Result<(), Invalid>
    ensures ok { OnOk result ((ds : Items) × (converted of_items
        (items (value depth) (length reader.old) reader.old) ≡ Some (ds, reader.new))) }
    ensures shorter { OnOk result (length reader.new < length reader.old) }
    ensures err { OnErr result (converted of_items (items (value depth) (length reader.old) reader.old) ≡ None) }
{
    'items: while !reader.take_end_array() {
        let item = take_value(reader, depth)?;
        drop(item);
    }
    Ok(())
}

/// Passes over the members of an object up to its end.
#[cycle(take)]
#[inline(never)]
fn pass_members(reader: &mut Reader<'_>, depth: usize) -> Result<(), Invalid>
    ensures ok { OnOk result ((ms : Members) × (converted (λ js. of_members js no_members)
        (members (value depth) (length reader.old) reader.old) ≡ Some (ms, reader.new))) }
    ensures shorter { OnOk result (length reader.new < length reader.old) }
    ensures err { OnErr result (converted (λ js. of_members js no_members)
        (members (value depth) (length reader.old) reader.old) ≡ None) }
{
    'members: while let Some(_name) = reader.next_key()? {
        let member = take_value(reader, depth)?;
        drop(member);
    }
    Ok(())
}
