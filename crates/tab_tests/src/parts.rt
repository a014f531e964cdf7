//! The table of the tests: `name` and `colour`, both text.
ghost use Rattle.std.specs.Prelude.{◌≡◌, ◌∷◌, [], codes, false, map, IfOk};
ghost use Rattle.med_value.specs.declared.value.ColType.TheVariants as types;
ghost use Rattle.fdw_api.specs.Kinds.{column_of};

use med_value::{ColType, ColumnDef, NoMemory};
use std::alloc::Global;

/// Four rows: `bolt` twice, and NULL in each column.
pub const PARTS: &[u8] = b"bolt\tred\nnut\t\\N\n\\N\tblue\nbolt\tblue\n";

/// The columns `name` and `colour`.
pub fn columns(alloc: Global) -> Result<Vec<ColumnDef>, NoMemory>
    ensures { IfOk result (λ columns. map column_of columns.items
        ≡ record { name = codes "name"; kind = types.Text; not_null = false }
        ∷ record { name = codes "colour"; kind = types.Text; not_null = false } ∷ []) }
{
    Ok(vec![in alloc;
        ColumnDef {
            name: "name".to_string(alloc)?,
            kind: ColType::Text,
            not_null: false
        },
        ColumnDef {
            name: "colour".to_string(alloc)?,
            kind: ColType::Text,
            not_null: false
        },
    ]?)
}
