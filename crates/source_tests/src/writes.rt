//! A write of orders and a scan behind it.
ghost use Rattle.std.specs.Prelude.{◌≡◌, ◌∷◌, [], Some};
ghost use Rattle.med_value.specs.declared.value.ColType.TheVariants.{Int};
ghost use Rattle.fdw_api.specs.Prelude.{BoxTable, table_of, CanModify};

use crate::asked::Asked;
use crate::orders::{KINDS, write_keys};
use crate::scans::scan;
use fdw_api::interface::{Fault, Wrapper};
use med_value::TableNo;
use std::alloc::Global;

/// What came of a write of orders and of a scan behind it, and what the scan gave.
#[derive(Drop)]
pub struct Came {
    pub written: Result<(), Fault>,
    pub read: Result<(), Fault>,
    pub out: Vec<u8>,
}

/// Writes an order of each of these keys, and reads by a scan, also where the write failed.
pub fn write_and_read<W: Wrapper>(
    source: &mut W,
    alloc: Global,
    table: TableNo,
    keys: &[i64],
    asked: Asked,
) -> Came
    requires can { CanModify (W.meaning source.old) table.number }
    requires kinds { (bound : BoxTable) → table_of (W.meaning source.old) table.number ≡ Some bound → bound.kinds ≡ Int ∷ Int ∷ Int ∷ [] }
{
    let mut out = Vec::new(alloc);
    let written = write_keys(source, alloc, table, keys);
    let read = scan(source, alloc, table, &KINDS, asked, &mut out);
    Came { written, read, out }
}
