// The replies that are no handler's.
ghost use Rattle.std.specs.Prelude.{◌≡◌, ◌<◌, ◌+◌, ◌++◌, length, OnOk, OnErr, vec_len, vec_capacity};
ghost use Rattle.session_wire.specs.Replies.{refusal, closing_replies};

use itoa::Buffer;
use med_session::NoRoom;

// Writes the reply to a line that is not in the grammar, whole or not at all: refused only where its room was not there.
pub(crate) fn write_refusal(sid: u16, out: &mut Vec<u8>) -> Result<(), NoRoom>
    ensures ok { OnOk result (out.new.items ≡ out.old.items ++ refusal sid) }
    ensures refused { OnErr result (out.new.items ≡ out.old.items) }
    ensures full { OnErr result (vec_capacity out.old < vec_len out.old + length (refusal sid)) }
{
    let mut buffer = Buffer::new();
    let number = buffer.format(sid).as_bytes();
    let length = out.len();
    if out.extend_from_slice(number).is_err() {
        return Err(NoRoom);
    }
    if out
        .extend_from_slice(b" E 08P01 protocol_violation\n")
        .is_err()
    {
        out.truncate(length);
        return Err(NoRoom);
    }
    Ok(())
}

// Writes the replies that close a stream, whole or not at all: refused only where their room was not there.
pub(crate) fn write_closing(out: &mut Vec<u8>) -> Result<(), NoRoom>
    ensures ok { OnOk result (out.new.items ≡ out.old.items ++ closing_replies) }
    ensures refused { OnErr result (out.new.items ≡ out.old.items) }
    ensures full { OnErr result (vec_capacity out.old < vec_len out.old + length closing_replies) }
{
    out.extend_from_slice(b"0 E 08P01 protocol_violation\n0 T CLOSED\n")
        .map_err(|_| NoRoom)
}
