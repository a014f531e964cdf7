//! Outputs that wait for ORDER BY, OFFSET and LIMIT while more rows come.
ghost use Rattle.std.specs.Prelude.{◌≡◌, ◌++◌, ◌+◌, ◌<◌, ℕ, [], IfOk, List, Some, map, true};
ghost use Rattle.std.specs.List.Sorted.{IsSortedBy};
ghost use Rattle.med_value.specs.Datum.{tuple};
ghost use Rattle.med_query.specs.Query.{Output, TellsFault};
ghost use Rattle.query_answer.specs.Ordering.{BeginsInOrder, HaveSamePage, StandsIn, comes_before};
ghost use Rattle.query_answer.specs.Staging.{HasNoFault, faults_by, output_of, outputs_by};

use crate::behind::{is_behind, is_safe};
use crate::ordering::{MANY, front_in_order, rows_wanted};
use crate::staging::{Staged, push_staged, staged_row};
use med_query::{Select, SelectCore};
use med_value::law::key_order_is_total;
use med_value::{NoMemory, Row};
use std::alloc::Global;
use std::mem;
use tri_expr::{EvalFault, verdict};

/// Of the outputs of a core that came all that OFFSET and LIMIT of a query can leave, and maybe some more.
#[derive(Drop)]
pub(crate) struct Waiting<'a> {
    pub core: &'a SelectCore,
    pub select: &'a Select,
    pub held: Vec<Staged>,
    /// Once so many outputs are held, those are let go that stand behind all that OFFSET and LIMIT leave.
    many: usize,
    /// So many of the first outputs that are held are in order, and a row that stands behind them is passed over; 0 while none is.
    front: usize,
    ghost in_front: { (0 < front) → BeginsInOrder select.now front (map output_of held.items) },
    ghost has_no_fault: { (0 < front) → HasNoFault core.now },
}

// How many outputs are held before the first are let go: some more than OFFSET and LIMIT can leave.
fn room(select: &Select) -> usize {
    match rows_wanted(select.offset, select.limit) {
        Some(wanted) if wanted <= MANY => 2 * wanted + 32,
        _ => usize::MAX,
    }
}

// Of some outputs the first, in order: as many as OFFSET and LIMIT can leave any of.
fn trimmed(
    alloc: Global,
    select: &Select,
    wanted: usize,
    held: Vec<Staged>,
) -> Result<Vec<Staged>, NoMemory>
    requires wanted { (most : ℕ) × (select.now.limit ≡ Some most) × (wanted ≡ select.now.offset + most) }
    ensures stands { IfOk result (λ out. StandsIn select.now (map output_of held.items) (map output_of out.items)) }
    ensures sorted { IfOk result (λ out. IsSortedBy (comes_before select.now) (map output_of out.items)) }
{
    key_order_is_total();
    front_in_order(alloc, select.directions.as_slice(), held, wanted)
}

// Whether two queries have the same ORDER BY, OFFSET and LIMIT.
fn has_same_page(one: &Select, other: &Select) -> bool
    ensures { (result ≡ true) → HaveSamePage one.now other.now }
{
    if one.offset != other.offset || one.limit != other.limit {
        return false;
    }
    one.directions.as_slice() == other.directions.as_slice()
}

impl<'a> Waiting<'a> {
    ghost use Rattle.query_answer.specs.Ordering.{StandsIn};

    /// No outputs yet, of a core of this query.
    pub fn new(alloc: Global, core: &'a SelectCore, select: &'a Select) -> Waiting<'a>
        ensures core { result.core.now ≡ core.now }
        ensures held { map output_of result.held.items ≡ [] }
    {
        Waiting {
            core,
            select,
            held: Vec::new(alloc),
            many: room(select),
            front: 0,
        }
    }

    // Whether a row needs no place: WHERE drops it, or it stands behind all that OFFSET and LIMIT leave, and shows no fault.
    fn is_passed(&self, alloc: Global, row: &Row) -> Result<bool, EvalFault>
        requires { 0 < self.now.front }
        ensures stands { IfOk result (λ is. (is ≡ true)
            → StandsIn self.now.select.now (map output_of self.now.held.items ++ outputs_by self.now.core.now (tuple row.now))
            (map output_of self.now.held.items)) }
        ensures no_fault { IfOk result (λ is. (is ≡ true) → faults_by self.now.core.now (tuple row.now) ≡ []) }
        ensures told { TellsFault result (faults_by self.now.core.now (tuple row.now)) }
    {
        key_order_is_total();
        match verdict(self.core.conditions.as_slice(), row, &[]) {
            Ok(true) => Ok(is_behind(
                alloc,
                self.select.directions.as_slice(),
                self.core.keys.as_slice(),
                row,
                self.held[self.front - 1].keys(),
            )),
            Ok(false) => Ok(true),
            Err(fault) => Err(fault),
        }
    }

    // The output of a row, where WHERE keeps it.
    fn hold(&mut self, alloc: Global, row: &Row) -> Result<(), EvalFault>
        ensures core { self.new.core ≡ self.old.core }
        ensures select { self.new.select ≡ self.old.select }
        ensures held { IfOk result (λ _. map output_of self.new.held.items
            ≡ map output_of self.old.held.items ++ outputs_by self.old.core.now (tuple row.now)) }
        ensures no_fault { IfOk result (λ _. faults_by self.old.core.now (tuple row.now) ≡ []) }
        ensures told { TellsFault result (faults_by self.old.core.now (tuple row.now)) }
    {
        let front = mem::replace(&mut self.front, 0);
        match staged_row(alloc, self.core, row) {
            Ok(staged) => push_staged(staged, &mut self.held)?,
            Err(fault) => return Err(fault),
        }
        self.front = front;
        Ok(())
    }

    // Lets go of outputs that stand behind all that OFFSET and LIMIT leave.
    fn trim(&mut self, alloc: Global) -> Result<(), NoMemory>
        ensures core { self.new.core ≡ self.old.core }
        ensures select { self.new.select ≡ self.old.select }
        ensures stands { IfOk result (λ _. StandsIn self.old.select.now (map output_of self.old.held.items)
            (map output_of self.new.held.items)) }
    {
        match rows_wanted(self.select.offset, self.select.limit) {
            Some(wanted) if wanted <= MANY => {
                self.front = 0;
                let held = mem::replace(&mut self.held, Vec::new(alloc));
                self.held = trimmed(alloc, self.select, wanted, held)?;
                if self.held.len() == wanted && is_safe(self.core) {
                    self.front = wanted;
                }
                Ok(())
            }
            _ => Ok(()),
        }
    }

    /// The output of one more row, where WHERE keeps it.
    #[inline(never)]
    pub fn add(&mut self, alloc: Global, row: &Row) -> Result<(), EvalFault>
        ensures core { self.new.core ≡ self.old.core }
        ensures select { self.new.select ≡ self.old.select }
        ensures stands { IfOk result (λ _. (all : List Output) → StandsIn self.old.select.now all (map output_of self.old.held.items)
            → StandsIn self.old.select.now (all ++ outputs_by self.old.core.now (tuple row.now)) (map output_of self.new.held.items)) }
        ensures no_fault { IfOk result (λ _. faults_by self.old.core.now (tuple row.now) ≡ []) }
        ensures told { TellsFault result (faults_by self.old.core.now (tuple row.now)) }
    {
        if self.front > 0 {
            match self.is_passed(alloc, row) {
                Ok(true) => return Ok(()),
                Ok(false) => {}
                Err(fault) => return Err(fault),
            }
        }
        match self.hold(alloc, row) {
            Ok(()) => {}
            Err(wrong) => return Err(wrong),
        }
        if self.held.len() < self.many {
            return Ok(());
        }
        match self.trim(alloc) {
            Ok(()) => Ok(()),
            Err(_) => Err(EvalFault::NoMemory),
        }
    }

    /// The outputs that are held, where they wait for ORDER BY, OFFSET and LIMIT of this query; else none are told.
    pub fn held_for(self, select: &Select) -> Result<Vec<Staged>, EvalFault>
        ensures stands { IfOk result (λ out. (all : List Output)
            → StandsIn self.entry.select.now all (map output_of self.entry.held.items)
            → StandsIn select.now all (map output_of out.items)) }
        ensures told { TellsFault result [] }
    {
        let Waiting {
            select: waited,
            held,
            ..
        } = self;
        if has_same_page(waited, select) {
            Ok(held)
        } else {
            Err(EvalFault::NoMemory)
        }
    }
}
