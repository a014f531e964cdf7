//! How a table is written: its changes go into a draft of it, and the draft's image into its blob.
ghost use Rattle.std.specs.Prelude.{◌≡◌, map, IsOk, Err, true};
ghost use Rattle.std.specs.List.{list_all};
ghost use Rattle.fdw_api.specs.Prelude.{row_of_change_fits};
ghost use Rattle.blob_store.specs.Names.{is_blob_name};
ghost use Rattle.wrapper_parts.specs.Staged.{change_is};
ghost use Rattle.place_wrapper.specs.Writes.{PutsOrNot, Ends, WritesOrNot};

use crate::faults::fault_of;
use crate::format::{PlacedTable, Unwritten};
use blob_store::Blobs;
use fdw_api::interface::Fault;
use std::alloc::Global;
use wrapper_parts::RowChange;

// Puts the image of a draft in the place of a blob.
fn put_image<B: Blobs, T: PlacedTable>(
    alloc: Global,
    blobs: &mut B,
    remote: &str,
    draft: &T::Draft,
) -> Result<(), Fault>
    requires { is_blob_name remote.now ≡ true }
    ensures { PutsOrNot (B.meaning blobs.old) remote.now (T.image_of draft.now) (B.meaning blobs.new) result }
{
    let pieces = T::image(alloc, draft)?;
    match blobs.replace(alloc, remote, &pieces) {
        Ok(()) => Ok(()),
        Err(fault) => Err(fault_of(fault)),
    }
}

// The table of a draft: kept where its image was put in the place of its blob, and else given up.
fn finish<T: PlacedTable>(draft: T::Draft, is_put: bool) -> T
    ensures { Ends (T.makes draft) (T.leaves draft) is_put result }
{
    if is_put {
        T::kept(draft)
    } else {
        T::given_up(draft)
    }
}

/// The table after changes, where its image was put in the place of its blob, and else the table as it was.
pub(crate) fn write<B: Blobs, T: PlacedTable>(
    alloc: Global,
    blobs: &mut B,
    table: T,
    changes: Vec<RowChange>,
) -> (T, Result<(), Fault>)
    requires named { is_blob_name (T.form.bound table).remote ≡ true }
    requires fits { list_all (row_of_change_fits (T.form.bound table).kinds) (map change_is changes.items) ≡ true }
    ensures { WritesOrNot T.form table (map change_is changes.items) result.0 (B.meaning blobs.old) (B.meaning blobs.new) result.1 }
{
    let Ok(remote) = table.remote().to_string(alloc) else {
        return (table, Err(Fault::NoMemory));
    };
    match table.rewritten(alloc, changes) {
        Ok(draft) => {
            let written = put_image::<B, T>(alloc, blobs, &remote, &draft);
            (finish(draft, written.is_ok()), written)
        }
        Err(Unwritten { table, fault }) => (table, Err(fault)),
    }
}
