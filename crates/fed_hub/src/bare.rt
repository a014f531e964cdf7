// Replies without the number of their session.
ghost use Rattle.std.specs.Prelude.{◌≡◌, ◌≤◌, ◌++◌, OnOk, vec_len};
ghost use Rattle.fed_hub.specs.Bare.{bare};

use med_value::NoMemory;

// Puts a reply after what is there, without the number that each of its lines begins with. Fails only where memory was refused.
pub(crate) fn put_bare(reply: &[u8], out: &mut Vec<u8>) -> Result<(), NoMemory>
    ensures told { OnOk result (out.new.items ≡ out.old.items ++ bare reply.now) }
    ensures longer { vec_len out.old ≤ vec_len out.new }
{
    let mut is_number = true;
    for byte in reply {
        if is_number {
            is_number = *byte != b' ';
        } else {
            out.push(*byte).map_err(|_| NoMemory)?;
            is_number = *byte == b'\n';
        }
    }
    Ok(())
}
