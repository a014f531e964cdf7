//! Places of cells by their values.
ghost use Rattle.std.specs.Prelude.{◌≡◌, ◌+◌, ◌<◌, List, [], ◌∷◌, IfOk, if◌then◌else◌, length, drop, None, Some};
ghost use Rattle.med_value.specs.Datum.{Datum, datum};
ghost use Rattle.wrapper_parts.specs.Places.{equals, first_place, Follows};
ghost use Rattle.wrapper_parts.specs.Indexes.{first_of, IsIndexFrom};

use med_value::{NoMemory, Value};
use std::alloc::Global;
use std::collections::HashMap;

/// The first place of each value: of integers and of texts by value, and of the two truth values.
#[derive(Drop)]
pub struct Firsts {
    whole: HashMap<i64, usize>,
    texts: HashMap<String, usize>,
    falses: Option<usize>,
    trues: Option<usize>,
}

/// The cells of a column by value: for each value the first place of a cell that is equal to it, and for each place the next place of an
/// equal cell. NULL is equal to nothing.
///
/// It holds a number for each cell, and for each distinct value that value and a number. The cells are added from the last to the first.
#[derive(Drop)]
pub struct PlaceIndex {
    firsts: Firsts,
    next: Vec<usize>,
}

impl Firsts {
    // No value has a place.
    fn new(alloc: Global) -> Firsts
        ensures { (v : Datum) → first_of result v ≡ None }
    {
        Firsts {
            whole: HashMap::new(alloc),
            texts: HashMap::new(alloc),
            falses: None,
            trues: None,
        }
    }

    // The first place of a value.
    fn get(&self, value: &Value) -> Option<usize>
        ensures { result ≡ first_of self.now (datum value.now) }
    {
        match value {
            Value::Null => None,
            Value::Int(n) => self.whole.get(n).copied(),
            Value::Text(text) => self.texts.get(text.as_str()).copied(),
            Value::Bool(true) => self.trues,
            Value::Bool(false) => self.falses,
        }
    }

    // Makes a place the first one of a value, and gives the one that was first before. NULL has none.
    fn put(&mut self, value: Value, at: usize) -> Result<Option<usize>, NoMemory>
        ensures old { IfOk result (λ old. old ≡ first_of self.old (datum value)) }
        ensures new { IfOk result (λ _. (v : Datum)
            → first_of self.new v ≡ (if equals v (datum value) then Some at else first_of self.old v)) }
    {
        match value {
            Value::Null => Ok(None),
            Value::Int(n) => {
                let old = self.whole.insert(n, at)?;
                Ok(old)
            }
            Value::Text(text) => {
                let old = self.texts.insert(text, at)?;
                Ok(old)
            }
            Value::Bool(true) => Ok(self.trues.replace(at)),
            Value::Bool(false) => Ok(self.falses.replace(at)),
        }
    }
}

impl PlaceIndex {
    /// An index with room for this many cells, none of which is in it yet. It fails for want of memory alone.
    pub fn new(alloc: Global, count: usize) -> Result<PlaceIndex, NoMemory>
        ensures { IfOk result (λ x. IsIndexFrom count [] x) }
    {
        let next = vec![in alloc; count; count]?;
        Ok(PlaceIndex {
            firsts: Firsts::new(alloc),
            next,
        })
    }

    /// Adds the cell at a place, which stands before those that are in the index. It fails for want of memory alone, and is of no use then.
    pub fn add(&mut self, at: usize, value: Value) -> Result<(), NoMemory>
        requires { at < length self.old.next.items }
        ensures { IfOk result (λ _. (cells : List Datum) → IsIndexFrom (at + 1) cells self.old
            → IsIndexFrom at (datum value ∷ cells) self.new) }
    {
        let none = self.next.len();
        let old = self.firsts.put(value, at)?;
        self.next[at] = old.unwrap_or(none);
        Ok(())
    }

    /// Returns how many integers and texts it has. Of two indexes the one with more leads to fewer places; scans are right by either.
    pub fn distinct(&self) -> usize {
        self.firsts
            .whole
            .len()
            .saturating_add(self.firsts.texts.len())
    }

    /// Returns whether a value has at most two places, on average.
    pub fn is_sharp(&self) -> bool {
        self.next.len() / 2 <= self.distinct()
    }

    /// The first place, from a place on, of a cell that is equal to the value, and the number of cells where there is none.
    ///
    /// The place is 0, or the cell before it is equal to the value. It takes no memory, and looks at one cell alone.
    pub fn next_place(&self, value: &Value, at: usize) -> usize
        ensures { (cells : List Datum) → IsIndexFrom 0 cells self.now → Follows (datum value.now) cells at
            → result ≡ first_place at (datum value.now) (drop at cells) }
    {
        if at == 0 {
            return self.firsts.get(value).unwrap_or(self.next.len());
        }
        if at > self.next.len() {
            return self.next.len();
        }
        self.next[at - 1]
    }
}
