//! Laws of the order of values and of their text. A call does nothing: its contract is the law, proved for all values.

ghost use Rattle.std.specs.Prelude.{◌≡◌, ◌≢◌, ℕ, Bool, List, All};
ghost use Rattle.std.specs.Cmp.{IsTotalOrder};
ghost use Rattle.std.specs.declared.cmp.Ordering.TheVariants.{Equal};
ghost use Rattle.med_value.specs.Datum.{Datum, NoValue};
ghost use Rattle.med_value.specs.Order.{datum_cmp, key_cmp};
ghost use Rattle.med_value.specs.Text.{escaped_text, field_text, read_back, IsUnbroken};

/// The order of values is total, NULL and values of two types included.
pub fn order_is_total()
    ensures { IsTotalOrder datum_cmp }
{}

/// Values that are equal in the order are the same value.
pub fn equal_is_same()
    ensures { (a b : Datum) → datum_cmp a b ≡ Equal → a ≡ b }
{}

/// The order of a key is total, in either direction and with NULLs first or last.
pub fn key_order_is_total()
    ensures { (desc nulls_first : Bool) → IsTotalOrder (key_cmp desc nulls_first) }
{}

/// An escaped text, read back, is the text: so two texts never stand alike in a reply.
pub fn escaped_text_is_read_back()
    ensures { (t : List ℕ) → read_back (escaped_text t) ≡ t }
{}

/// No text stands in a reply as NULL does.
pub fn text_is_not_null()
    ensures { (t : List ℕ) → escaped_text t ≢ field_text NoValue }
{}

/// An escaped text has no TAB, LF or CR: these stand in a reply between its fields and lines alone.
pub fn escaped_text_is_unbroken()
    ensures { (t : List ℕ) → All IsUnbroken (escaped_text t) }
{}
