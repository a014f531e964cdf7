//! Statements that write rows to bound writes over the tables of a catalogue.

ghost use Rattle.std.specs.Prelude.{◌≡◌, length, map, IfOk, OnOk, IfErr};
ghost use Rattle.med_value.specs.declared.cause.Cause.{Cause as AnyCause};
ghost use Rattle.med_catalog.specs.View.{objects};
ghost use Rattle.med_binder.specs.Prelude.{AreNamedOnce, attached};
ghost use Rattle.med_syntax.specs.WriteView.{write_tree};
ghost use Rattle.bind_write.specs.Naming.{WriteNames};
ghost use Rattle.bind_write.specs.Typing.{WriteTypes};
ghost use Rattle.bind_write.specs.Binding.{IsBindable, IsMeantWrite, NotBound};
ghost use Rattle.bind_write.specs.Steps.{BindsWrite};

use crate::bound::TableWrite;
use crate::deleting::delete_over;
use crate::inserting::insert_over;
use crate::updating::update_over;
use med_binder::BoundTable;
use med_catalog::Catalog;
use med_syntax::{Update, WriteStatement};
use med_value::Cause;
use std::alloc::Global;

// A write over the tables of the catalogue, or why it is refused.
fn write_over(
    alloc: Global,
    statement: WriteStatement,
    catalog: &Catalog,
    bound: &[BoundTable],
    user: &str,
) -> Result<TableWrite, Cause>
    requires many { length bound.now ≡ length (objects catalog.now).tables }
    requires once { AreNamedOnce (objects catalog.now) }
    ensures { BindsWrite (objects catalog.now) (map attached bound.now) user.now (write_tree statement) result }
{
    match statement {
        WriteStatement::Insert(insert) => {
            let made = insert_over(alloc, &insert, catalog, bound, user);
            drop(insert);
            made
        }
        WriteStatement::Update(update) => {
            let Update {
                entry,
                sets,
                condition,
            } = update;
            let made = update_over(alloc, &entry, sets, &condition, catalog, bound, user);
            drop(entry);
            drop(condition);
            made
        }
        WriteStatement::Delete(delete) => {
            let made = delete_over(alloc, &delete, catalog, bound, user);
            drop(delete);
            made
        }
    }
}

/// What a statement that writes rows means over the tables of the catalogue, or why this user may not have it done (SQL:2016, 14.9
/// <delete statement: searched>, 14.11 <insert statement>, 14.14 <update statement: searched>).
///
/// The table is that of its name in the catalogue, and its rows are where `bound` says: a place for each table, in their order. WHERE and
/// SET see its columns, VALUES sees none, and the query of an INSERT is bound as a query by itself. Of several causes of one phase any may
/// be told.
///
/// # Errors
///
/// Names and rights: 42P01 where there is no such table, 42704 where the user, the owner too, has no mapping on its server and 42501 where
/// that is of mode read; 42703 where INSERT's list or SET names no column of the table, 42701 where the list and 42601 where SET names one
/// twice; and what stands against the names and rights of expressions and of the query.
///
/// Types, where none of these stands: what stands against the types of expressions and of the query; 42803 for an aggregate in WHERE, SET
/// or VALUES; 42601 for rows of different lengths, for more values than columns and for not as many as named columns; and 42804 where a
/// value is of another type than its column.
///
/// 53200 where memory was refused.
pub fn bind_write(
    alloc: Global,
    statement: WriteStatement,
    catalog: &Catalog,
    bound: &[BoundTable],
    user: &str,
) -> Result<TableWrite, Cause>
    requires many { length bound.now ≡ length (objects catalog.now).tables }
    requires once { AreNamedOnce (objects catalog.now) }
    // What is answered has no cause against it.
    ensures bindable { OnOk result (IsBindable (objects catalog.now) user.now (write_tree statement)) }
    // It means the statement, and names the table and where its rows are.
    ensures meant { IfOk result (λ w. IsMeantWrite (objects catalog.now) (map attached bound.now) (write_tree statement) w) }
    // A refusal tells a cause that stands, one of names or rights before one of types, or that memory was refused.
    ensures refused { IfErr result (λ c. NotBound (objects catalog.now) user.now (write_tree statement) c) }
    // Where no cause stands, only memory can be refused.
    ensures read { ((c : AnyCause) → WriteNames (objects catalog.now) user.now (write_tree statement) c → ⊥)
        → ((c : AnyCause) → WriteTypes (objects catalog.now) (write_tree statement) c → ⊥)
        → IfErr result (λ c. c ≡ AnyCause.OutOfMemory) }
{
    write_over(alloc, statement, catalog, bound, user)
}
