//! Laws of writes over a catalogue. A call does nothing: its contract is the law.
ghost use Rattle.std.specs.Prelude.{List};
ghost use Rattle.med_value.specs.Datum.{Tuple};
ghost use Rattle.med_value.specs.declared.cause.Cause.{Cause as AnyCause};
ghost use Rattle.med_query.specs.Query.{Tables};
ghost use Rattle.med_syntax.specs.WriteTree.{WriteTree};
ghost use Rattle.med_catalog.specs.Objects.{Objects};
ghost use Rattle.med_binder.specs.Tables.{shapes};
ghost use Rattle.bind_write.specs.Meaning.{target_of, columns_in, write_meant};
ghost use Rattle.bind_types.specs.TreeTypes.{column_kinds};
ghost use Rattle.bind_write.specs.Typing.{WriteTypes};
ghost use Rattle.med_exec.specs.Writing.{IsTypedWrite};
ghost use Rattle.med_statements.specs.Typed.{IsClean, AreGivenRows};

/// The rows that a write writes are of its table's types, where no cause of types stands against it and its texts have no U+0000, as those
/// of a statement that was read: whatever typed rows the table has, and whatever the query of an INSERT answers over typed tables
/// (SQL:2016, 9.2 "Store assignment").
pub fn written_rows_are_typed()
    ensures { (o : Objects) (t : WriteTree) (db : Tables) (answer : List Tuple)
        → ((c : AnyCause) → WriteTypes o t c → ⊥) → IsClean t → AreGivenRows (shapes o) t db answer
        → IsTypedWrite (column_kinds (columns_in (shapes o) (target_of t))) (write_meant (shapes o) t) answer }
{}
