//! Laws of what is planned.
#![tactic(auto)]

ghost use Rattle.med_query.specs.Prelude.{Query, Tables, SameRows, IsSteady, IsShownCause};
ghost use Rattle.med_value.specs.declared.cause.Cause.{Cause as Told};

use med_query::law::answers_ignore_order;

/// A query over the same rows in any other order shows the same causes: so a source may give its rows in any order.
pub fn causes_ignore_order()
    ensures { (q : Query) → IsSteady q → (db other : Tables) → SameRows db other → (c : Told) → IsShownCause q db c
        → IsShownCause q other c }
{
    answers_ignore_order();
}
