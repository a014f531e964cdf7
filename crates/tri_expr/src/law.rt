//! Laws of expressions. A call does nothing: its contract is the law, proved for all expressions, rows and parameters.

ghost use Rattle.std.specs.Prelude.{◌≡◌, ℕ, List, ◌∷◌, false, true};
ghost use Rattle.std.specs.List.{list_all};
ghost use Rattle.std.specs.List.Sorted.{IsPermutation};
ghost use Rattle.med_value.specs.Datum.{Datum, Tuple};
ghost use Rattle.tri_expr.specs.declared.expr.Expr.{Expr as Written};
ghost use Rattle.tri_expr.specs.declared.expr.SetFunction.{SetFunction as AnyFunction};
ghost use Rattle.tri_expr.specs.Outcome.{Outcome, over};
ghost use Rattle.tri_expr.specs.Aggregate.{aggregated};
ghost use Rattle.tri_expr.specs.Meaning.{tree_meaning, meaning, means, has_cell, shared};
ghost use Rattle.tri_expr.specs.Verdict.{is_met, is_in};
ghost use Rattle.tri_expr.specs.Tree.{Tree, conjunct_trees};
ghost use Rattle.tri_expr.specs.TreeParts.{is_risky, bare, same_tree};
ghost use Rattle.tri_expr.specs.Laws.{HasValue, IgnoresOrder, SameVerdict};

/// An aggregate does not depend on the order in which the values come: so a sum is out of range exactly where its exact
/// total is, and never on the way.
pub fn aggregates_ignore_order()
    ensures { (function : AnyFunction) (vs ws : List Datum) → IsPermutation vs ws → aggregated function vs ≡ aggregated function ws }
{}

/// The value of an expression over a class does not depend on the order of the class's rows.
pub fn values_ignore_order()
    ensures { (params : Tuple) (e : Written) → IgnoresOrder (meaning params e) }
{}

/// An expression that is not risky has a value over every class of rows.
pub fn safe_expression_has_value()
    ensures { (params : Tuple) (e : Written) (class : List Tuple) → is_risky e ≡ false → HasValue (meaning params e class) }
{}

/// All conjuncts of a condition are true exactly where the condition is true.
pub fn conjuncts_decide_condition()
    ensures { (params : Tuple) (class : List Tuple) (t : Tree) →
        is_in (over (means params (conjunct_trees t)) class) ≡ is_met (tree_meaning params t class) }
{}

/// The verdict of conjuncts does not depend on their order.
pub fn verdicts_ignore_order()
    ensures { (os us : List Outcome) → IsPermutation os us → SameVerdict os us }
{}

/// A column over rows that all have one value there is that value: so over a group a key reads its value.
pub fn column_over_equal_rows_is_their_value()
    ensures { (at : ℕ) (v : Datum) (row : Tuple) (rows : List Tuple)
        → list_all (has_cell at v) (row ∷ rows) ≡ true → shared at (row ∷ rows) ≡ v }
{}

/// Two expressions are the same exactly where they are one tree without their parentheses.
pub fn same_trees_are_equal()
    ensures equal { (a b : Tree) → same_tree a b ≡ true → bare a ≡ bare b }
    ensures same { (a b : Tree) → bare a ≡ bare b → same_tree a b ≡ true }
{}

/// Parentheses do not change what an expression means.
pub fn bare_tree_means_the_same()
    ensures { (params : Tuple) (t : Tree) → tree_meaning params (bare t) ≡ tree_meaning params t }
{}
