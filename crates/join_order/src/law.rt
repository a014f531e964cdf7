//! Laws of the order of joins. A call does nothing: its contract is the law, proved for all SELECTs and tables.

ghost use Rattle.std.specs.Prelude.{◌≡◌, List, ℕ, true};
ghost use Rattle.med_query.specs.Form.{Form};
ghost use Rattle.join_order.specs.Laws.{OrderKeepsAnswers, OrderKeepsRisk, are_safe_forms};

/// A SELECT whose entries are put into the order of `reorder` answers, over tables under their new numbers, what it answered before. It
/// shows the causes that it showed before. This is so where each row is as wide as its table, and no ON may fault.
pub fn order_keeps_answers()
    ensures { OrderKeepsAnswers }
{}

/// Where no ON of a SELECT may fault, the SELECT in that order may fault just where it might before, and no ON of it may fault.
pub fn order_keeps_risk()
    ensures { (ws : List ℕ) (f : Form) → are_safe_forms f.cores ≡ true → OrderKeepsRisk ws f }
{}
