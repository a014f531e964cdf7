//! A text that is one object.
ghost use Rattle.std.specs.Prelude.{◌≡◌, ◌<◌, length, Some, None, false, IfErr, OnOk, OnErr};
ghost use Rattle.json.specs.Json.{value, members};
ghost use Rattle.json.specs.Reads.{token_of};
ghost use Rattle.json.specs.Scratch.{room};
ghost use Rattle.serde_json.specs.Data.{Members, no_members, object};
ghost use Rattle.serde_json.specs.Read.{of_members, converted, read};
ghost use Rattle.json_members.specs.Seen.{is_brace, is_object};

use crate::scalar::Notes;
use crate::walk::take_value;
use json::{Invalid, Reader, Scratch, Token};

/// How deep arrays and objects may nest in an object that is read: one level less than `serde_json` reads, since the object is one.
const DEPTH: usize = 126;

/// Why a text was not read as an object.
#[derive(Clone, Copy, Debug, Drop, PartialEq, Eq)]
pub enum ObjectFault {
    /// Out of memory: the buffer has less room than the text takes, and did not get more.
    NoMemory,
    /// The text is no object, or one that `serde_json` refuses.
    NotObject,
}

/// Takes the members of an object up to its end, and notes each.
fn take_members<N: Notes>(
    reader: &mut Reader<'_>,
    notes: &mut N,
    depth: usize,
) -> Result<(), Invalid>
    requires { N.after notes.old no_members notes.old }
    ensures ok { OnOk result ((ms : Members) × (converted (λ js. of_members js no_members)
        (members (value depth) (length reader.old) reader.old) ≡ Some (ms, reader.new)) × N.after notes.old ms notes.new) }
    ensures err { OnErr result (converted (λ js. of_members js no_members)
        (members (value depth) (length reader.old) reader.old) ≡ None) }
{
    'members: while let Some(name) = reader.next_key()? {
        let member = take_value(reader, depth)?;
        notes.note(name, member);
    }
    Ok(())
}

/// Whether an object begins.
fn is_brace(token: &Token<'_>) -> bool
    ensures { result ≡ is_brace (token_of token.now) }
{
    matches!(token, Token::BeginObject)
}

/// Reads a text as one object, and notes its members: what is noted is what `serde_json` reads (`specs/Read.antt` there). Fails with
/// `NotObject` where the text is none, and with `NoMemory` only where the buffer had less room than the text takes. A buffer is kept from
/// text to text: it has then room for the longest. After an error the notes are of no text.
pub fn read_object<N: Notes>(
    text: &str,
    scratch: &mut Scratch,
    notes: &mut N,
) -> Result<(), ObjectFault>
    requires { N.after notes.old no_members notes.old }
    ensures ok { OnOk result ((ms : Members) × (read text.now ≡ Some (object ms)) × N.after notes.old ms notes.new) }
    ensures err { IfErr result (λ e. e ≡ ObjectFault.NotObject → is_object (read text.now) ≡ false) }
    ensures memory { IfErr result (λ e. e ≡ ObjectFault.NoMemory → room scratch.old < length text.now) }
{
    let Ok(mut reader) = Reader::new(text, scratch) else {
        return Err(ObjectFault::NoMemory);
    };
    let Some(token) = reader.next() else {
        return Err(ObjectFault::NotObject);
    };
    if !is_brace(&token) {
        return Err(ObjectFault::NotObject);
    }
    match take_members(&mut reader, notes, DEPTH) {
        Ok(()) => {}
        Err(_) => return Err(ObjectFault::NotObject),
    }
    if reader.next().is_some() {
        return Err(ObjectFault::NotObject);
    }
    Ok(())
}
