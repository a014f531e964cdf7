//! What changes make of each old row.
ghost use Rattle.std.specs.Prelude.{◌≡◌, replicate, slice_set, IfOk};

use med_value::NoMemory;
use std::alloc::Global;

/// What a write makes of an old row: it stays as it is, another stands in its place, or none.
#[derive(Drop)]
pub enum Fate<T> {
    Keep,
    Change(T),
    Gone,
}

/// A fate for each of this many rows: it stays.
pub fn keep_all<T: Drop>(alloc: Global, count: usize) -> Result<Vec<Fate<T>>, NoMemory>
    ensures { IfOk result (λ fates. fates.items ≡ replicate count Fate.Keep) }
{
    let mut fates = Vec::new(alloc);
    for _ in 0..count {
        fates.push(Fate::Keep)?;
    }
    Ok(fates)
}

/// Sets the fate of the row at a place. A place at which no row stands has none, and then nothing changes.
pub fn set_fate<T: Drop>(fates: &mut Vec<Fate<T>>, id: u64, fate: Fate<T>)
    ensures { fates.new.items ≡ slice_set fates.old.items id fate }
{
    let at = id as usize;
    if at < fates.len() {
        fates[at] = fate;
    }
}
