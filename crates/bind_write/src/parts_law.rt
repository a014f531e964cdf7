//! Laws of writes over a catalogue. A call does nothing: its contract is the law.

ghost use Rattle.std.specs.Prelude.{◌≡◌};
ghost use Rattle.med_value.specs.declared.cause.Cause.{Cause as AnyCause};
ghost use Rattle.med_syntax.specs.Prelude.{Name, WriteTree};
ghost use Rattle.med_catalog.specs.Prelude.{phase, Objects};
ghost use Rattle.bind_write.specs.Naming.{WriteNames};
ghost use Rattle.bind_write.specs.Typing.{WriteTypes};

/// Each cause of names or rights that stands against a write is of phase 3, and each cause of types of phase 4.
pub fn causes_have_their_phase()
    ensures names { (o : Objects) (user : Name) (t : WriteTree) (c : AnyCause) → WriteNames o user t c → phase c ≡ 3 }
    ensures types { (o : Objects) (t : WriteTree) (c : AnyCause) → WriteTypes o t c → phase c ≡ 4 }
{}
