//! What the changes of a write make of a table: its entries are rewritten by the keys that go and the rows that come.
ghost use Rattle.std.specs.Prelude.{◌≡◌, ℕ, ◌+◌, true, false, List, [], ◌∷◌, ◌++◌, map, length, nat_eq};
ghost use Rattle.std.specs.List.{IsDistinct};
ghost use Rattle.sqlite.specs.Order.{Row as SqlRow};
ghost use Rattle.sqlite.specs.View.{IsShaped};
ghost use Rattle.sqlite_trees.specs.declared.store.Shape.TheVariants as shape;
ghost use Rattle.fdw_api.specs.Prelude.{held, Change, rows_after, is_first};
ghost use Rattle.sqlite_tables.specs.Prelude.{Layout, rows_in};
ghost use Rattle.sqlite_writes.specs.Rewriting.{rewritten, repeats_key};
ghost use Rattle.sqlite_writes.specs.Kinds.{no_line, key_cell, in_key_order, repeats};
ghost use Rattle.sqlite_writes.specs.Splitting.{keys_gone, rows_come, AreChanges, IsNamedOnce};

/// Changes of a table, made by a rewrite of its entries, leave the rows that the interface of wrappers says, in the order of their keys and
/// each under an id of its own. A key of the rewrite repeats just where two of those rows have one key.
pub fn changes_are_a_rewrite()
    ensures rows { (l : Layout) (entries : List SqlRow) (changes : List Change) → AreChanges l entries changes
        → repeats_key l (keys_gone changes) (rows_come changes) entries ≡ false
        → map held (rows_in l (rewritten l (keys_gone changes) (rows_come changes) entries))
        ≡ in_key_order (rows_after no_line (rows_in l entries) changes) }
    ensures repeats { (l : Layout) (entries : List SqlRow) (changes : List Change) → AreChanges l entries changes
        → repeats_key l (keys_gone changes) (rows_come changes) entries
        ≡ repeats (map key_cell (rows_after no_line (rows_in l entries) changes)) }
    ensures count { (l : Layout) (entries : List SqlRow) (changes : List Change) → AreChanges l entries changes
        → length (rows_after no_line (rows_in l entries) changes) + length (keys_gone changes)
        ≡ length (rows_in l entries) + length (rows_come changes) }
    ensures once { (l : Layout) (entries : List SqlRow) (changes : List Change) → AreChanges l entries changes
        → IsDistinct nat_eq (map (λ r. r.id) (rows_in l (rewritten l (keys_gone changes) (rows_come changes) entries))) }
    ensures ordered { (l : Layout) (entries : List SqlRow) (changes : List Change) → AreChanges l entries changes
        → IsShaped shape.Table (rewritten l (keys_gone changes) (rows_come changes) entries) }
{}

/// Changes name each row once where each is the first to name its row.
pub fn first_changes_name_once()
    ensures none { IsNamedOnce [] }
    ensures more { (changes : List Change) (change : Change) → IsNamedOnce changes → is_first changes change ≡ true
        → IsNamedOnce (changes ++ change ∷ []) }
{}
