//! What a member's value is as far as it is noted, and who takes note of it.
ghost use Rattle.std.specs.Prelude.{◌≡◌};
ghost use Rattle.serde_json.specs.Data.{Data, Members, put};
ghost use Rattle.json_members.specs.Seen.{seen};
ghost use Rattle.json_members.specs.Scalars.{seen_of};

/// A value without what it holds: of an array or an object only that it is one, of a number only the integer of 64 bits that it is.
#[derive(Clone, Copy, Debug, Drop)]
pub enum Scalar<'a> {
    /// `null`.
    Null,
    /// `true` or `false`.
    Bool(bool),
    /// A number for which `as_i64` of `serde_json` gives a value.
    Whole(i64),
    /// Any other number.
    Real,
    /// A string, its escapes resolved.
    Text(&'a str),
    /// An array or an object.
    Nested,
}

/// Notes of an object's members, which are taken one by one as they come.
pub trait Notes {
    /// What the first notes are after the members of such an object: the last ones.
    ghost after: { Self → Members → Self → Type 0 };

    /// Takes note of one member more. Of two members of one name the last counts.
    fn note(&mut self, name: &str, scalar: Scalar<'_>)
        ensures { (begun : Self) (ms : Members) (d : Data) → seen_of scalar.entry ≡ seen d → after begun ms self.old
            → after begun (put name.now d ms) self.new };
}
