//! The groups of a core, of which only what its expressions ask of them is kept while rows come and go.
ghost use Rattle.std.specs.Prelude.{◌≡◌, ◌++◌, ◌∷◌, ◌<◌, ◌≤◌, ◌^◌, ℕ, true, [], All, IfOk, List, flat_map, length, map};
ghost use Rattle.med_value.specs.Prelude.{tuple, Tuple, group_limit};
ghost use Rattle.query_answer.specs.Classes.{AreReady, KeepsFew, KeepsGroups, KeepsSome};
ghost use Rattle.query_answer.specs.Keys.{key_in, put_at};
ghost use Rattle.query_answer.specs.Running.{ClassesRun, runnings_in};

use crate::leaves::Leaf;
pub(crate) use crate::new_folds::new_fold;
use crate::row_keys::{RowKey, empty_key, put_key};
use crate::running::{Running, add_row, all_fresh, values};
use crate::staging::{Staged, push_staged, staged_class};
use indexmap::IndexSet;
use med_value::{NoMemory, Row, Value};
use std::alloc::Global;
use std::mem;
use tri_expr::{EvalFault, Expr};

/// Groups by the values in some columns, and what is kept of each while their rows come. All rows are one group where there is no column.
#[derive(Drop)]
pub(crate) struct GroupFold<'a> {
    pub columns: &'a [usize],
    pub leaves: Vec<Leaf>,
    pub having: Vec<Expr>,
    pub keys: Vec<Expr>,
    pub items: Vec<Expr>,
    pub count: usize,
    pub seen: IndexSet<RowKey>,
    pub groups: Vec<Vec<Running>>,
    /// The key of the last row, unless it is kept: the next one's takes its room.
    pub last: RowKey,
    /// Whether each row that came was taken in whole: memory may be refused in the middle of one, and then no further row is taken.
    pub is_whole: bool,
    ghost kept: { is_whole ≡ true → KeepsSome columns.now leaves.items count (map key_in seen.keys) (runnings_in groups.items) },
}

// One more row of a group that is there.
#[inline(never)]
fn add_to(
    alloc: Global,
    leaves: &[Leaf],
    number: usize,
    row: &Row,
    groups: &mut Vec<Vec<Running>>,
) -> Result<(), NoMemory>
    requires there { number < length groups.old.items }
    requires ready { AreReady leaves.now (runnings_in groups.old.items) }
    ensures { IfOk result (λ _. (classes : List (List Tuple)) → ClassesRun leaves.now classes (runnings_in groups.old.items)
        → ClassesRun leaves.now (put_at classes number (tuple row.now)) (runnings_in groups.new.items)) }
{
    add_row(alloc, leaves, row, &mut groups[number])
}

// The first row of a group.
#[inline(never)]
fn add_group(
    alloc: Global,
    leaves: &[Leaf],
    row: &Row,
    groups: &mut Vec<Vec<Running>>,
) -> Result<(), NoMemory>
    ensures { IfOk result (λ _. (classes : List (List Tuple)) → ClassesRun leaves.now classes (runnings_in groups.old.items)
        → ClassesRun leaves.now (classes ++ (tuple row.now ∷ []) ∷ []) (runnings_in groups.new.items)) }
{
    let mut group = all_fresh(alloc, leaves)?;
    add_row(alloc, leaves, row, &mut group)?;
    groups.push(group)?;
    Ok(())
}

// A row goes to the group of its key, or is the first of a new one.
fn put_row(
    alloc: Global,
    columns: &[usize],
    leaves: &[Leaf],
    row: &Row,
    seen: &mut IndexSet<RowKey>,
    groups: &mut Vec<Vec<Running>>,
    key: &mut RowKey,
) -> Result<(), NoMemory>
    requires kept { KeepsFew columns.now leaves.now (map key_in seen.old.keys) (runnings_in groups.old.items) }
    ensures { IfOk result (λ _. (rows : List Tuple)
        → KeepsGroups columns.now leaves.now (map key_in seen.old.keys) (runnings_in groups.old.items) rows
        → KeepsGroups columns.now leaves.now (map key_in seen.new.keys) (runnings_in groups.new.items) (rows ++ tuple row.now ∷ [])) }
{
    if columns.is_empty() {
        return add_to(alloc, leaves, 0, row, groups);
    }
    put_key(alloc, columns, row, key)?;
    match seen.get_index_of(&*key) {
        Some(number) => add_to(alloc, leaves, number, row, groups),
        None => {
            add_group(alloc, leaves, row, groups)?;
            seen.insert(mem::replace(key, empty_key(alloc)))?;
            Ok(())
        }
    }
}

impl<'a> GroupFold<'a> {
    ghost use Rattle.std.specs.Prelude.{IfOk};
    ghost use Rattle.med_query.specs.Query.{TellsFault, senses};
    ghost use Rattle.query_answer.specs.Folding.{classes_so_far, Folds, IsLifted, SameFold};
    ghost use Rattle.query_answer.specs.Running.{AllRun, counted};
    ghost use Rattle.query_answer.specs.Staging.{class_staged, class_told, output_of, outputs_in};

    /// One more row, which goes to the group of its key. Refused only for want of memory.
    pub fn add(&mut self, alloc: Global, row: &Row) -> Result<(), NoMemory>
        requires few { self.old.count < group_limit }
        ensures folds { IfOk result (λ _. (rows : List Tuple) → Folds rows self.old → Folds (rows ++ tuple row.now ∷ []) self.new) }
        ensures same { SameFold self.old self.new }
    {
        if !self.is_whole {
            return Err(NoMemory);
        }
        self.is_whole = false;
        put_row(
            alloc,
            self.columns,
            self.leaves.as_slice(),
            row,
            &mut self.seen,
            &mut self.groups,
            &mut self.last,
        )?;
        self.count += 1;
        self.is_whole = true;
        Ok(())
    }

    // What a group is sorted by and what it shows, where HAVING keeps it. What its leaves give takes the room of other values.
    fn staged_group(
        &self,
        alloc: Global,
        group: &Vec<Running>,
        params: &mut Vec<Value>,
    ) -> Result<Option<Staged>, EvalFault>
        requires many { length self.now.leaves.items ≡ length group.now.items }
        requires few { All (λ r. counted r ≤ 2 ^ 62) group.now.items }
        ensures outputs { IfOk result (λ s. (class : List Tuple) → AllRun self.now.leaves.items class group.now.items
            → (having keys items : List Expr) → IsLifted having keys items self.now
            → outputs_in s ≡ class_staged (senses [] having) (senses [] keys) (senses [] items) class) }
        ensures no_fault { IfOk result (λ _. (class : List Tuple) → AllRun self.now.leaves.items class group.now.items
            → (having keys items : List Expr) → IsLifted having keys items self.now
            → class_told (senses [] having) (senses [] keys) (senses [] items) class ≡ []) }
        ensures told { (class : List Tuple) → AllRun self.now.leaves.items class group.now.items
            → (having keys items : List Expr) → IsLifted having keys items self.now
            → TellsFault result (class_told (senses [] having) (senses [] keys) (senses [] items) class) }
    {
        let Ok(()) = values(alloc, self.leaves.as_slice(), group.as_slice(), params) else {
            return Err(EvalFault::NoMemory);
        };
        staged_class(
            alloc,
            self.having.as_slice(),
            self.keys.as_slice(),
            self.items.as_slice(),
            &[],
            params.as_slice(),
        )
    }

    /// The outputs of the groups that HAVING keeps.
    pub fn staged_groups(self, alloc: Global) -> Result<Vec<Staged>, EvalFault>
        ensures outputs { IfOk result (λ out. (rows : List Tuple) → Folds rows self.entry
            → (having keys items : List Expr) → IsLifted having keys items self.entry
            → map output_of out.items ≡ flat_map (class_staged (senses [] having) (senses [] keys) (senses [] items))
            (classes_so_far self.entry.columns.now rows)) }
        ensures no_fault { IfOk result (λ _. (rows : List Tuple) → Folds rows self.entry
            → (having keys items : List Expr) → IsLifted having keys items self.entry
            → flat_map (class_told (senses [] having) (senses [] keys) (senses [] items))
            (classes_so_far self.entry.columns.now rows) ≡ []) }
        ensures told { (rows : List Tuple) → Folds rows self.entry
            → (having keys items : List Expr) → IsLifted having keys items self.entry
            → TellsFault result (flat_map (class_told (senses [] having) (senses [] keys) (senses [] items))
            (classes_so_far self.entry.columns.now rows)) }
    {
        if !self.is_whole {
            return Err(EvalFault::NoMemory);
        }
        let Ok(mut out) = Vec::with_capacity(alloc, self.groups.len()) else {
            return Err(EvalFault::NoMemory);
        };
        let mut params = Vec::new(alloc);
        for group in &self.groups {
            match self.staged_group(alloc, group, &mut params) {
                Ok(staged) => push_staged(staged, &mut out)?,
                Err(fault) => return Err(fault),
            }
        }
        Ok(out)
    }
}
