//! Replies to requests, and their text.
ghost use Rattle.std.specs.Prelude.{◌≡◌, ◌+◌, ◌≤◌, ◌++◌, ◌∷◌, ℕ, flat_map, length, map, OnOk, string_bytes, vec_len, vec_capacity, codes, decimal};
ghost use Rattle.med_value.specs.Prelude.{tuple, escaped_text, HasGrown};
ghost use Rattle.sql_meaning.specs.Prelude.{reply_text, done, answered, refused, header, line, row_line, tag_line, rows_tag, ddl_tag, write_tag};
ghost use Rattle.med_syntax.specs.Prelude.{ddl_tree, write_tree};
ghost use Rattle.med_statements.specs.Outcomes.{RepliesRows, TellsReply, reply_of, word_text};
ghost use Rattle.bind_write.specs.Meaning.{target_of};

use crate::RowSet;
use itoa::Buffer;
use med_syntax::{Ddl, WriteStatement};
use med_value::text::{escaped_text, row_text};
use med_value::{Cause, NoMemory, Row};
use std::alloc::Global;

/// The room that is taken first for the lines of a reply, which are made one after another.
const LINE_ROOM: usize = 64;

/// The statement that wrote rows, as its tag begins.
#[derive(Clone, Copy, Debug, PartialEq, Eq)]
pub enum RowsWord {
    /// INSERT.
    Insert,
    /// UPDATE.
    Update,
    /// DELETE.
    Delete,
}

/// What a request is answered with.
#[derive(Drop)]
pub enum Outcome {
    /// The session was opened.
    Opened,
    /// The session was closed.
    Closed,
    /// A statement on objects was done.
    Changed(Ddl),
    /// So many rows were written.
    Written(RowsWord, u64),
    /// The rows of a query.
    Rows(RowSet),
    /// A cursor was opened.
    Declared,
    /// The rows of a FETCH of the cursor of this name.
    Fetched(String, RowSet),
    /// A cursor was closed.
    Ended,
    /// Why it was refused.
    Refused(Cause),
}

// Appends bytes for which there is room.
fn put(bytes: &[u8], out: &mut Vec<u8>)
    requires { vec_len out.old + length bytes.now ≤ vec_capacity out.old }
    ensures items { out.new.items ≡ out.old.items ++ bytes.now }
    ensures len { vec_len out.new ≡ vec_len out.old + length bytes.now }
    ensures capacity { vec_capacity out.old ≤ vec_capacity out.new }
{
    match out.extend_from_slice(bytes) {
        Ok(()) => {}
        Err(_) => unreachable!(),
    }
}

// Writes the reply of a tag alone.
fn write_tag(sid: u16, tag: &[u8], out: &mut Vec<u8>)
    requires room { vec_len out.old + 128 ≤ vec_capacity out.old }
    requires short { length tag.now ≤ 32 }
    ensures { out.new.items ≡ out.old.items ++ reply_text sid (done tag.now) }
{
    let mut buffer = Buffer::new();
    put(buffer.format(sid).as_bytes(), out);
    put(b" T ", out);
    put(tag, out);
    put(b"\n", out);
}

// Writes the tag of a statement on objects.
fn write_change(sid: u16, ddl: &Ddl, out: &mut Vec<u8>)
    requires { vec_len out.old + 128 ≤ vec_capacity out.old }
    ensures { out.new.items ≡ out.old.items ++ reply_text sid (done (ddl_tag (ddl_tree ddl.now))) }
{
    match ddl {
        Ddl::CreateWrapper(_) => write_tag(sid, b"CREATE FOREIGN DATA WRAPPER", out),
        Ddl::CreateServer(_) => write_tag(sid, b"CREATE SERVER", out),
        Ddl::CreateMapping(_) => write_tag(sid, b"CREATE USER MAPPING", out),
        Ddl::CreateTable(_) => write_tag(sid, b"CREATE FOREIGN TABLE", out),
        Ddl::DropWrapper(_) => write_tag(sid, b"DROP FOREIGN DATA WRAPPER", out),
        Ddl::DropServer(_) => write_tag(sid, b"DROP SERVER", out),
        Ddl::DropTable(_) => write_tag(sid, b"DROP FOREIGN TABLE", out),
        Ddl::DropMapping(_) => write_tag(sid, b"DROP USER MAPPING", out),
    }
}

// Writes the reply of a tag with a number of rows.
fn write_rows_tag(sid: u16, word: &[u8], count: u64, out: &mut Vec<u8>)
    requires room { vec_len out.old + 128 ≤ vec_capacity out.old }
    requires short { length word.now ≤ 32 }
    ensures { out.new.items ≡ out.old.items ++ reply_text sid (done (rows_tag word.now count)) }
{
    let mut buffer = Buffer::new();
    put(buffer.format(sid).as_bytes(), out);
    put(b" T ", out);
    put(word, out);
    put(b" ", out);
    put(buffer.format(count).as_bytes(), out);
    put(b"\n", out);
}

/// The word with which the tag of a statement begins.
pub fn word_of(write: &WriteStatement) -> RowsWord
    ensures { (n : ℕ) → rows_tag (word_text result) n ≡ write_tag (write_tree write.now) n }
{
    match write {
        WriteStatement::Insert(_) => RowsWord::Insert,
        WriteStatement::Update(_) => RowsWord::Update,
        WriteStatement::Delete(_) => RowsWord::Delete,
    }
}

/// The name of the table that a statement writes.
pub fn table_of(write: &WriteStatement) -> &str
    ensures { result.now ≡ target_of (write_tree write.now) }
{
    match write {
        WriteStatement::Insert(insert) => insert.table.as_str(),
        WriteStatement::Update(update) => update.entry.table.as_str(),
        WriteStatement::Delete(delete) => delete.entry.table.as_str(),
    }
}

// Writes the tag of a statement that wrote so many rows.
fn write_count(sid: u16, word: RowsWord, count: u64, out: &mut Vec<u8>)
    requires { vec_len out.old + 128 ≤ vec_capacity out.old }
    ensures { out.new.items ≡ out.old.items ++ reply_text sid (done (rows_tag (word_text word) count)) }
{
    match word {
        RowsWord::Insert => write_rows_tag(sid, b"INSERT 0", count, out),
        RowsWord::Update => write_rows_tag(sid, b"UPDATE", count, out),
        RowsWord::Delete => write_rows_tag(sid, b"DELETE", count, out),
    }
}

// Writes a refusal.
fn write_refusal(sid: u16, cause: Cause, out: &mut Vec<u8>)
    requires { vec_len out.old + 128 ≤ vec_capacity out.old }
    ensures { out.new.items ≡ out.old.items ++ reply_text sid (refused cause) }
{
    let mut buffer = Buffer::new();
    put(buffer.format(sid).as_bytes(), out);
    put(b" E ", out);
    put(cause.code().as_bytes(), out);
    put(b" ", out);
    put(cause.name().as_bytes(), out);
    put(b"\n", out);
}

// Begins a line of a session, in place of the line before it.
fn begin_line(sid: u16, begins: &[u8], text: &mut Vec<u8>) -> Result<(), NoMemory>
    ensures { OnOk result (text.new.items ≡ decimal sid ++ codes " " ++ begins.now) }
{
    let mut buffer = Buffer::new();
    text.clear();
    text.extend_from_slice(buffer.format(sid).as_bytes())?;
    text.push(b' ')?;
    text.extend_from_slice(begins)?;
    Ok(())
}

// Makes the line of output names, in place of the line before it.
fn make_header(sid: u16, names: &[String], text: &mut Vec<u8>) -> Result<(), NoMemory>
    ensures { OnOk result (text.new.items ≡ line sid (header (map string_bytes names.now))) }
{
    begin_line(sid, b"H", text)?;
    append_names(names, text)?;
    text.push(b'\n')?;
    Ok(())
}

// Appends a TAB and the escaped text of each name.
fn append_names(names: &[String], text: &mut Vec<u8>) -> Result<(), NoMemory>
    ensures { OnOk result (text.new.items ≡ text.old.items ++ flat_map (λ name. 9 ∷ escaped_text name) (map string_bytes names.now)) }
{
    for name in names {
        text.push(b'\t')?;
        escaped_text(name.as_str(), text)?;
    }
    Ok(())
}

// Makes the line of a row, in place of the line before it.
fn make_row(sid: u16, row: &Row, text: &mut Vec<u8>) -> Result<(), NoMemory>
    ensures { OnOk result (text.new.items ≡ line sid (row_line (tuple row.now))) }
{
    begin_line(sid, b"R", text)?;
    if !row.cells.is_empty() {
        text.push(b'\t')?;
        row_text(row, text)?;
    }
    text.push(b'\n')?;
    Ok(())
}

// Makes the line of the tag of this word and so many rows, in place of the line before it.
fn make_count(sid: u16, word: &[u8], count: usize, text: &mut Vec<u8>) -> Result<(), NoMemory>
    ensures { OnOk result (text.new.items ≡ line sid (tag_line (rows_tag word.now count))) }
{
    let mut buffer = Buffer::new();
    begin_line(sid, b"T ", text)?;
    text.extend_from_slice(word)?;
    text.push(b' ')?;
    text.extend_from_slice(buffer.format(count).as_bytes())?;
    text.push(b'\n')?;
    Ok(())
}

// Appends the lines of rows, each made in `text` first.
fn append_rows(
    sid: u16,
    rows: &[Row],
    text: &mut Vec<u8>,
    out: &mut Vec<u8>,
) -> Result<(), NoMemory>
    ensures ok { OnOk result (out.new.items ≡ out.old.items ++ flat_map (λ row. line sid (row_line row)) (map tuple rows.now)) }
    ensures grows { HasGrown out.old.items out.new.items }
    ensures capacity { vec_capacity out.old ≤ vec_capacity out.new }
{
    for row in rows {
        make_row(sid, row, text)?;
        out.extend_from_slice(text)?;
    }
    Ok(())
}

// Appends the lines of a reply of rows, with the word of its tag. Where memory is refused, the lines before stand.
fn append_answer(
    alloc: Global,
    sid: u16,
    word: &[u8],
    set: &RowSet,
    out: &mut Vec<u8>,
) -> Result<(), NoMemory>
    ensures ok { OnOk result (out.new.items ≡ out.old.items
        ++ reply_text sid (answered word.now (map string_bytes set.now.names.items) (map tuple set.now.rows.items))) }
    ensures grows { HasGrown out.old.items out.new.items }
    ensures capacity { vec_capacity out.old ≤ vec_capacity out.new }
{
    let mut text = Vec::with_capacity(alloc, LINE_ROOM)?;
    make_header(sid, &set.names, &mut text)?;
    out.extend_from_slice(&text)?;
    append_rows(sid, &set.rows, &mut text, out)?;
    make_count(sid, word, set.rows.len(), &mut text)?;
    out.extend_from_slice(&text)?;
    Ok(())
}

// Writes the reply of rows, or that memory was refused; and whether it told the rows.
fn write_answer(alloc: Global, sid: u16, word: &[u8], set: &RowSet, out: &mut Vec<u8>) -> bool
    requires { vec_len out.old + 128 ≤ vec_capacity out.old }
    ensures { TellsReply sid (answered word.now (map string_bytes set.now.names.items) (map tuple set.now.rows.items)) result
        out.old.items out.new.items }
{
    let before = out.len();
    if append_answer(alloc, sid, word, set, out).is_ok() {
        return true;
    }
    out.truncate(before);
    write_refusal(sid, Cause::OutOfMemory, out);
    false
}

// Writes the reply of an outcome without rows.
fn write_told(sid: u16, outcome: &Outcome, out: &mut Vec<u8>)
    requires room { vec_len out.old + 128 ≤ vec_capacity out.old }
    requires short { RepliesRows (reply_of outcome.now) → ⊥ }
    ensures { out.new.items ≡ out.old.items ++ reply_text sid (reply_of outcome.now) }
{
    match outcome {
        Outcome::Opened => write_tag(sid, b"OPEN", out),
        Outcome::Closed => write_tag(sid, b"BYE", out),
        Outcome::Changed(ddl) => write_change(sid, ddl, out),
        Outcome::Written(word, count) => write_count(sid, *word, *count, out),
        Outcome::Declared => write_tag(sid, b"DECLARE CURSOR", out),
        Outcome::Ended => write_tag(sid, b"CLOSE CURSOR", out),
        Outcome::Refused(cause) => write_refusal(sid, *cause, out),
        Outcome::Rows(_) => unreachable!(),
        Outcome::Fetched(_, _) => unreachable!(),
    }
}

/// Writes a reply whole behind what `out` has: that of the outcome, or 53200 in place of rows for which memory was refused. Whether it told
/// the outcome.
pub fn write_reply(alloc: Global, sid: u16, outcome: &Outcome, out: &mut Vec<u8>) -> bool
    requires { vec_len out.old + 128 ≤ vec_capacity out.old }
    ensures { TellsReply sid (reply_of outcome.now) result out.old.items out.new.items }
{
    match outcome {
        Outcome::Rows(set) => write_answer(alloc, sid, b"SELECT", set, out),
        Outcome::Fetched(_, set) => write_answer(alloc, sid, b"FETCH", set, out),
        _ => {
            write_told(sid, outcome, out);
            true
        }
    }
}
