//! The fields of many records as one text, in which they stand as in a blob: each with a byte behind it that ends it.
ghost use Rattle.std.specs.Prelude.{◌≡◌, ◌<◌, ◌≤◌, ◌+◌, ◌-◌, ◌^◌, ◌++◌, ◌∷◌, [], get_or, take, drop, length, map, option_map, OnOk, IfOk, IfErr, IfSome};
ghost use Rattle.std.specs.List.{flat_map};
ghost use Rattle.csv.specs.Records.{field_at, field_count, fields_of, partial_of, prev};
ghost use Rattle.csv_tables.specs.Held.{CanMove, held_of, moved};

use std::alloc::{AllocError, Global};
use std::marker::Model;
use wrapper_parts::Splice;

/// Fields one after the other: the bytes of all of them in one text, each with one byte behind it, and where in it each ends, that byte
/// included.
#[derive(Drop)]
pub struct Fields {
    bytes: Vec<u8>,
    ends: Vec<u32>,
}

impl Model for Fields {
    ghost use Rattle.std.specs.Prelude.{length};
    ghost use Rattle.csv.specs.Records.{Row, Rising};

    ghost Value = { Row };

    ghost view = { λ a. record { bytes = a.bytes.items; ends = a.ends.items } };

    ghost invariant = { λ a. Rising 0 a.ends.items (length a.bytes.items) };
}

/// Where the field at a place begins, and where the byte that ends it stands.
fn bounds(ends: &Vec<u32>, at: usize) -> (usize, usize)
    requires { at < length ends.now.items }
    ensures start { result.0 ≡ prev 0 ends.now.items at }
    ensures last { result.1 ≡ prev 0 ends.now.items at + ((get_or ends.now.items at 0 - prev 0 ends.now.items at) - 1) }
{
    let start = start_of(ends, at) as usize;
    let end = ends[at] as usize;
    (start, if start < end { end - 1 } else { start })
}

/// Where the field at a place begins, or the text ends.
fn start_of(ends: &Vec<u32>, at: usize) -> u32
    requires { at ≤ length ends.now.items }
    ensures { result ≡ prev 0 ends.now.items at }
{
    if at == 0 { 0 } else { ends[at - 1] }
}

/// Counts places from another one than before.
fn move_places(places: &mut [u32], from: u32, to: u32)
    requires { CanMove from to places.old }
    ensures { places.new ≡ map (moved from to) places.old }
{
    if from == to {
        return;
    }
    for place in places.iter_mut() {
        *place = *place - from + to;
    }
}

/// Counts the places from an index on from another one than before.
fn move_behind(ends: &mut Vec<u32>, first: usize, from: u32, to: u32)
    requires within { first ≤ length ends.old.items }
    requires can_move { CanMove from to (drop first ends.old.items) }
    ensures { ends.new.items ≡ take first ends.old.items ++ map (moved from to) (drop first ends.old.items) }
{
    move_places(ends.slice_mut(first..), from, to);
}

impl Fields {
    /// No fields.
    pub fn new(alloc: Global) -> Fields
        ensures fields { fields_of result ≡ [] }
        ensures partial { partial_of result ≡ [] }
    {
        Fields {
            bytes: Vec::new(alloc),
            ends: Vec::new(alloc),
        }
    }

    /// No fields, with room for so many bytes and so many fields. It fails for want of memory alone.
    pub fn with_room(alloc: Global, size: usize, count: usize) -> Result<Fields, AllocError>
        ensures fields { IfOk result (λ f. fields_of f ≡ []) }
        ensures partial { IfOk result (λ f. partial_of f ≡ []) }
    {
        Ok(Fields {
            bytes: Vec::with_capacity(alloc, size)?,
            ends: Vec::with_capacity(alloc, count)?,
        })
    }

    /// How many fields there are.
    pub fn len(&self) -> usize
        ensures { result ≡ length (held_of self.now) }
    {
        self.ends.len()
    }

    /// The field at a place, without the byte that ends it.
    pub fn get(&self, at: usize) -> Option<&[u8]>
        ensures place { IfSome result (λ f. (at < field_count self.now) × (at + 1 ≤ 2 ^ 64 - 1)) }
        ensures value { option_map (λ f. f.now) result ≡ field_at (held_of self.now) at }
    {
        if at >= self.ends.len() {
            return None;
        }
        let (start, last) = bounds(&self.ends, at);
        Some(&self.bytes.as_slice()[start..last])
    }

    /// The fields from a place up to another as they stand in the text, each with the byte that ends it.
    pub fn text(&self, from: usize, to: usize) -> &[u8]
        requires order { from ≤ to }
        requires within { to ≤ length (held_of self.now) }
        ensures { result.now ≡ flat_map (λ field. field) (take (to - from) (drop from (fields_of self.now))) }
    {
        let start = start_of(&self.ends, from) as usize;
        let end = start_of(&self.ends, to) as usize;
        &self.bytes.as_slice()[start..end]
    }

    // Ends the field whose bytes stand last.
    #[inline(always)]
    fn end_field(&mut self) -> Result<(), AllocError>
        ensures fields { OnOk result (fields_of self.new ≡ fields_of self.old ++ partial_of self.old ∷ []) }
        ensures partial { OnOk result (partial_of self.new ≡ []) }
    {
        let end = self.bytes.len();
        if end > 4_294_967_295 {
            return Err(AllocError);
        }
        if self.ends.push(end as u32).is_err() {
            return Err(AllocError);
        }
        Ok(())
    }

    /// Adds a field and the byte that ends it. It fails for want of memory, and for more than 2^32 - 1 bytes.
    #[inline(always)]
    pub fn push_field(&mut self, field: &[u8], end: u8) -> Result<(), AllocError>
        ensures fields { OnOk result (fields_of self.new ≡ fields_of self.old ++ (partial_of self.old ++ (field.now ++ end ∷ [])) ∷ []) }
        ensures partial { OnOk result (partial_of self.new ≡ []) }
    {
        self.bytes.extend_from_slice(field)?;
        self.bytes.push(end)?;
        self.end_field()
    }

    /// These fields, and behind them those of others from a place up to another, each with the byte that ends it. It fails for want of
    /// memory, and for more than 2^32 - 1 bytes.
    pub fn with_range(self, others: &Fields, from: usize, to: usize) -> Result<Fields, AllocError>
        requires order { from ≤ to }
        requires within { to ≤ length (held_of others.now) }
        requires partial { partial_of self ≡ [] }
        ensures fields { IfOk result (λ f. fields_of f ≡ fields_of self ++ take (to - from) (drop from (fields_of others.now))) }
        ensures partial { IfOk result (λ f. partial_of f ≡ []) }
    {
        let start = start_of(&others.ends, from);
        let added = others.text(from, to);
        let Fields {
            mut bytes,
            mut ends,
        } = self;
        let base = bytes.len();
        if base.saturating_add(added.len()) > 4_294_967_295 {
            return Err(AllocError);
        }
        let first = ends.len();
        bytes.extend_from_slice(added)?;
        ends.extend_from_slice(&others.ends.as_slice()[from..to])?;
        move_behind(&mut ends, first, start, base as u32);
        Ok(Fields { bytes, ends })
    }
}

/// Fields, of which those from a place up to another are to be replaced by others: all that can fail is done. Kept they are the fields with
/// the others in the range's place, given up they are as they were.
#[derive(Drop)]
pub struct Replacing {
    bytes: Splice<u8>,
    /// Those behind the range are counted as they were.
    ends: Splice<u32>,
    /// Where the range ended in the text, and where what stands in its place ends.
    old: u32,
    new: u32,
}

impl Model for Replacing {
    ghost use Rattle.std.specs.Prelude.{map, ◌++◌};
    ghost use Rattle.wrapper_parts.specs.Splices.{before_of, after_of, front_of, middle_of, back_of};
    ghost use Rattle.csv_tables.specs.Held.{moved};
    ghost use Rattle.csv_tables.specs.Exchange.{Exchange, IsExchange};

    ghost Value = { Exchange };

    ghost view = { λ a. record {
      before = record { bytes = before_of a.bytes; ends = before_of a.ends };
      after = record {
        bytes = after_of a.bytes;
        ends = front_of a.ends ++ middle_of a.ends ++ map (moved a.old a.new) (back_of a.ends);
      };
    } };

    ghost invariant = { λ a. IsExchange (record {
      before = record { bytes = before_of a.bytes; ends = before_of a.ends };
      after = record {
        bytes = after_of a.bytes;
        ends = front_of a.ends ++ middle_of a.ends ++ map (moved a.old a.new) (back_of a.ends);
      };
    }) a.old a.new (back_of a.ends) };
}

impl Replacing {
    /// Fields, of which those from a place up to another are to be replaced by others. It fails for want of memory, and for more than
    /// 2^32 - 1 bytes, and then the fields come back.
    pub fn new(fields: Fields, from: usize, to: usize, others: Fields) -> Result<Replacing, Fields>
        requires order { from ≤ to }
        requires within { to ≤ length (held_of fields) }
        requires whole { partial_of fields ≡ [] }
        requires others { partial_of others ≡ [] }
        ensures before { IfOk result (λ r. r.before ≡ fields) }
        ensures after { IfOk result (λ r. fields_of r.after ≡ take from (fields_of fields) ++ fields_of others ++ drop to (fields_of fields)) }
        ensures whole { IfOk result (λ r. partial_of r.after ≡ []) }
        ensures err { IfErr result (λ same. same ≡ fields) }
    {
        let start = start_of(&fields.ends, from);
        let old = start_of(&fields.ends, to);
        let new = (start as usize).saturating_add(others.bytes.len());
        if new.saturating_add(fields.bytes.len() - old as usize) > 4_294_967_295 {
            return Err(fields);
        }
        let Fields {
            bytes: text,
            ends: mut places,
        } = others;
        move_behind(&mut places, 0, 0, start);
        let Fields { bytes, ends } = fields;
        let bytes = match Splice::new(bytes, start as usize, old as usize, text) {
            Ok(bytes) => bytes,
            Err(bytes) => return Err(Fields { bytes, ends }),
        };
        match Splice::new(ends, from, to, places) {
            Ok(ends) => Ok(Replacing {
                bytes,
                ends,
                old,
                new: new as u32,
            }),
            Err(ends) => Err(Fields {
                bytes: bytes.given_up(),
                ends,
            }),
        }
    }

    /// The text of the fields with the others in the range's place, each with the byte that ends it, in three pieces.
    pub fn text(&self) -> (&[u8], &[u8], &[u8])
        ensures { result.0.now ++ result.1.now ++ result.2.now ≡ flat_map (λ field. field) (fields_of self.now.after) }
    {
        (self.bytes.front(), self.bytes.middle(), self.bytes.back())
    }

    /// The fields with the others in the range's place. It cannot fail.
    pub fn kept(self) -> Fields
        ensures { result ≡ self.after }
    {
        let Replacing {
            bytes,
            ends,
            old,
            new,
        } = self;
        let first = ends.front().len() + ends.middle().len();
        let mut places = ends.kept();
        move_behind(&mut places, first, old, new);
        Fields {
            bytes: bytes.kept(),
            ends: places,
        }
    }

    /// The fields as they were. It cannot fail.
    pub fn given_up(self) -> Fields
        ensures { result ≡ self.before }
    {
        Fields {
            bytes: self.bytes.given_up(),
            ends: self.ends.given_up(),
        }
    }
}
