//! Laws of binding writes. A call does nothing: its contract is the law.

ghost use Rattle.std.specs.Prelude.{◌≡◌, ◌⊎◌};
ghost use Rattle.med_value.specs.declared.cause.Cause.{Cause as AnyCause};
ghost use Rattle.med_syntax.specs.Prelude.{Name, WriteTree};
ghost use Rattle.med_catalog.specs.Objects.{Objects};
ghost use Rattle.bind_write.specs.Binding.{IsLeast, NotBound};

/// A cause by which a write is not bound is of the least phase in which one stands, unless it is want of memory.
pub fn least_phase_is_told()
    ensures { (o : Objects) (user : Name) (t : WriteTree) (c : AnyCause)
        → NotBound o user t c → (c ≡ AnyCause.OutOfMemory) ⊎ IsLeast o user t c }
{}
