//! Laws of nested loops. A call does nothing: its contract is the law, proved for all entries, scans and rows.

ghost use Rattle.pushdown.specs.LoopLaws.{RunsAreAnswers, RunsExist, RestsExist, StartsAreAnswers};

/// Whatever rows each scan leaves out and in whatever order it gives them, a run gives exactly the kept rows of the join, in some order;
/// and there is such a run, from its start and from the midst of it.
pub fn runs_are_answers()
    ensures answers { RunsAreAnswers }
    ensures starts { StartsAreAnswers }
    ensures exist { RunsExist }
    ensures rests { RestsExist }
{}
