//! Laws of offers. A call does nothing: its contract is the law, proved for all conditions, answers and rows.

ghost use Rattle.pushdown.specs.Index.{LookupsMayCome, UnorderedLookupsMayCome};
ghost use Rattle.pushdown.specs.Laws.{MarksTell, OffersSplit, TestsDecide};

use tri_expr::law::bare_tree_means_the_same;

/// A condition that may be offered is true of a joined row exactly where its test passes the row of the entry, the parameters being read
/// off the row before it.
pub fn tests_decide()
    ensures { TestsDecide }
{
    bare_tree_means_the_same();
}

/// What is offered and what is checked again are the conditions, whatever the box answers.
pub fn offers_split()
    ensures { OffersSplit }
{
    bare_tree_means_the_same();
}

/// What is kept by the marks of what was offered is what is to be checked again.
pub fn marks_tell()
    ensures { MarksTell }
{}

/// A scan that was offered `column = parameter` may give the rows that an index finds under the parameter's value, and only those, whatever
/// the box answered.
pub fn lookups_may_come()
    ensures ordered { LookupsMayCome }
    ensures unordered { UnorderedLookupsMayCome }
{}
