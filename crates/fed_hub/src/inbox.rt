// What was read of a connection and not answered yet.
ghost use Rattle.std.specs.Prelude.{◌≡◌, ◌==◌, ◌≤◌, ◌-◌, true, false, length};
ghost use Rattle.std.specs.List.{list_any};
ghost use Rattle.med_value.specs.Limits.{line_limit};
ghost use Rattle.session_wire.specs.Lines.{IsFrontOfLine};

use bytes::BytesMut;
use med_value::NoMemory;
use med_value::limits::LINE_LIMIT;
use session_wire::lines::{FoundLine, new_codec, next_line};
use std::alloc::Global;

// Room for the first bytes, taken with a connection.
const FIRST_ROOM: usize = 8_192;

// Bytes that were read. Whole lines are taken from their beginning.
#[derive(Drop)]
pub(crate) struct Inbox {
    pub unread: BytesMut,
    pub is_front: bool,
    pub ghost front: { is_front ≡ true → IsFrontOfLine unread.items },
}

impl Inbox {
    ghost use Rattle.std.specs.Prelude.{◌++◌, [], IfOk, OnOk, OnErr};
    ghost use Rattle.session_wire.specs.Lines.{lines_of, rest};
    ghost use Rattle.fed_hub.specs.Boxes.{unread_in, Takes};

    // Nothing was read yet. Fails only where memory was refused.
    pub fn new(alloc: Global) -> Result<Inbox, NoMemory>
        ensures { IfOk result (λ inbox. unread_in inbox ≡ []) }
    {
        match BytesMut::with_capacity(alloc, FIRST_ROOM) {
            Ok(unread) => Ok(Inbox {
                unread,
                is_front: true,
            }),
            Err(_) => Err(NoMemory),
        }
    }

    // Returns whether something may be taken: a whole line, or one that closes the connection.
    pub fn has_some(&self) -> bool
        ensures { result ≡ false → lines_of (unread_in self.now) ≡ rest (unread_in self.now) }
    {
        !self.is_front
    }

    // Puts in what was read. Fails only where memory was refused.
    pub fn put(&mut self, piece: &[u8]) -> Result<(), NoMemory>
        ensures ok { OnOk result (unread_in self.new ≡ unread_in self.old ++ piece.now) }
        ensures refused { OnErr result (unread_in self.new ≡ unread_in self.old) }
    {
        // Bytes that end no line are not searched again when more come.
        let goes_on = self.is_front && is_more_of_line(self.unread.len(), piece);
        self.is_front = false;
        if self.unread.extend_from_slice(piece).is_err() {
            return Err(NoMemory);
        }
        self.is_front = goes_on;
        Ok(())
    }

    // Takes the first line. Fails only where memory was refused: then nothing is promised of the bytes that are left, nor after a line
    // that closes the connection.
    pub fn take(&mut self) -> Result<FoundLine, NoMemory>
        ensures { IfOk result (λ found. Takes found (unread_in self.old) (unread_in self.new)) }
    {
        self.is_front = false;
        let mut codec = new_codec();
        match next_line(&mut codec, &mut self.unread)? {
            FoundLine::Line(text) => Ok(FoundLine::Line(text)),
            FoundLine::Nothing => {
                self.is_front = true;
                Ok(FoundLine::Nothing)
            }
            FoundLine::Closing => Ok(FoundLine::Closing),
        }
    }
}

// Returns whether a piece after n held bytes ends no line, and leaves it short enough.
fn is_more_of_line(held: usize, piece: &[u8]) -> bool
    ensures { result ≡ true → (list_any (λ b. b == 10) piece.now ≡ false) × (length piece.now ≤ line_limit - held) }
{
    held <= LINE_LIMIT && piece.len() <= LINE_LIMIT - held && !piece.contains(&b'\n')
}
