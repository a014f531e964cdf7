//! Laws of binding over a catalogue. A call does nothing: its contract is the law.
#![tactic(auto)]

ghost use Rattle.std.specs.Prelude.{◌≡◌};
ghost use Rattle.med_value.specs.declared.cause.Cause.{Cause as AnyCause};
ghost use Rattle.med_syntax.specs.Prelude.{Name, SelectTree};
ghost use Rattle.med_catalog.specs.Prelude.{Objects, phase};
ghost use Rattle.med_binder.specs.Queries.{QueryNames, QueryTypes};

/// Each cause of names or rights is of phase 3, and each cause of types of phase 4.
pub fn causes_have_their_phase()
    ensures names { (o : Objects) (user : Name) (q : SelectTree) (c : AnyCause) → QueryNames o user q c → phase c ≡ 3 }
    ensures types { (o : Objects) (q : SelectTree) (c : AnyCause) → QueryTypes o q c → phase c ≡ 4 }
{}
