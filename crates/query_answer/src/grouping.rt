//! DISTINCT: of outputs that are equal the first is kept.
ghost use Rattle.std.specs.Prelude.{◌≡◌, IfOk, IsPermutation, map};
ghost use Rattle.indexmap.specs.IndexSet.{insert_key};
ghost use Rattle.med_query.specs.Prelude.{distinct, output_eq};
ghost use Rattle.query_answer.specs.Finishing.{made_unique};
ghost use Rattle.query_answer.specs.Keys.{output_in};
ghost use Rattle.query_answer.specs.Staging.{output_of};

use crate::row_keys::OutputKey;
use crate::staging::Staged;
use indexmap::IndexSet;
use med_value::NoMemory;
use std::alloc::Global;

/// One more output, which is kept where none that is kept is equal to it. Refused only for want of memory.
pub(crate) fn add_distinct(output: Staged, seen: &mut IndexSet<OutputKey>) -> Result<(), NoMemory>
    ensures { IfOk result (λ _. map output_in seen.new.keys
        ≡ insert_key output_eq (map output_in seen.old.keys) (output_of output)) }
{
    seen.insert(OutputKey { output })?;
    Ok(())
}

/// The outputs that are kept. Refused only for want of memory.
pub(crate) fn kept_outputs(
    alloc: Global,
    seen: IndexSet<OutputKey>,
) -> Result<Vec<Staged>, NoMemory>
    ensures { IfOk result (λ out. map output_of out.items ≡ map output_in seen.keys) }
{
    let mut out = Vec::with_capacity(alloc, seen.len())?;
    for key in seen {
        out.push(key.output)?;
    }
    Ok(out)
}

// One of each of the outputs that are equal.
fn distinct_outputs(alloc: Global, staged: Vec<Staged>) -> Result<Vec<Staged>, NoMemory>
    ensures { IfOk result (λ out. map output_of out.items ≡ distinct output_eq (map output_of staged.items)) }
{
    let mut seen = IndexSet::new(alloc);
    for one in staged {
        add_distinct(one, &mut seen)?;
    }
    kept_outputs(alloc, seen)
}

/// DISTINCT where it is asked.
pub(crate) fn unique_outputs(
    alloc: Global,
    staged: Vec<Staged>,
    distinct: bool,
) -> Result<Vec<Staged>, NoMemory>
    ensures { IfOk result (λ out. IsPermutation (made_unique distinct (map output_of staged.items)) (map output_of out.items)) }
{
    if distinct {
        distinct_outputs(alloc, staged)
    } else {
        Ok(staged)
    }
}
