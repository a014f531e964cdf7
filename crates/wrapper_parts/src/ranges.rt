//! Ranges of keys.
ghost use Rattle.std.specs.Prelude.{◌≡◌, ◌&&◌, ℤ, true, false, FitsSigned};
ghost use Rattle.std.specs.Int.{w64};
ghost use Rattle.std.specs.Ordering.{is_ge, is_le, is_lt, is_gt, is_eq, int_cmp};
ghost use Rattle.med_value.specs.Prelude.{Whole, datum, compares_true};
ghost use Rattle.wrapper_parts.specs.Ranges.{has_key, is_key_value, is_apart};

use med_value::{Comparison, Value};

/// The keys from `low` to `high`, where it is open; none where it is not.
#[derive(Clone, Copy, Debug, PartialEq, Eq)]
pub struct KeyRange {
    /// The least key.
    pub low: i64,
    /// The greatest key.
    pub high: i64,
    /// Whether it has any.
    pub open: bool,
}

impl KeyRange {
    /// All keys.
    pub fn all() -> KeyRange
        ensures { (k : ℤ) → FitsSigned w64 k → has_key result k ≡ true }
    {
        KeyRange {
            low: i64::MIN,
            high: i64::MAX,
            open: true,
        }
    }

    /// No key.
    pub fn none() -> KeyRange
        ensures { (k : ℤ) → has_key result k ≡ false }
    {
        KeyRange {
            low: 0,
            high: 0,
            open: false,
        }
    }

    /// Those of its keys that are at least this one.
    pub fn at_least(self, key: i64) -> KeyRange
        ensures { (k : ℤ) → has_key result k ≡ (has_key self k && is_ge (int_cmp k key)) }
    {
        let mut range = self;
        if range.low < key {
            range.low = key;
        }
        range
    }

    /// Those of its keys that are at most this one.
    pub fn at_most(self, key: i64) -> KeyRange
        ensures { (k : ℤ) → has_key result k ≡ (has_key self k && is_le (int_cmp k key)) }
    {
        let mut range = self;
        if key < range.high {
            range.high = key;
        }
        range
    }

    /// Those of its keys that are greater than this one.
    pub fn above(self, key: i64) -> KeyRange
        ensures { (k : ℤ) → FitsSigned w64 k → has_key result k ≡ (has_key self k && is_gt (int_cmp k key)) }
    {
        if key == i64::MAX {
            return KeyRange::none();
        }
        self.at_least(key + 1)
    }

    /// Those of its keys that are less than this one.
    pub fn below(self, key: i64) -> KeyRange
        ensures { (k : ℤ) → FitsSigned w64 k → has_key result k ≡ (has_key self k && is_lt (int_cmp k key)) }
    {
        if key == i64::MIN {
            return KeyRange::none();
        }
        self.at_most(key - 1)
    }

    /// This key alone, if the range has it.
    pub fn only(self, key: i64) -> KeyRange
        ensures { (k : ℤ) → has_key result k ≡ (has_key self k && is_eq (int_cmp k key)) }
    {
        self.at_least(key).at_most(key)
    }

    /// Those of its keys of which the comparison with this value is true.
    pub fn compared(self, comparison: Comparison, value: &Value) -> KeyRange
        requires op { is_apart comparison ≡ false }
        requires key { is_key_value (datum value.now) ≡ true }
        ensures { (k : ℤ) → FitsSigned w64 k → has_key result k ≡ (has_key self k && compares_true comparison (Whole k) (datum value.now)) }
    {
        let Value::Int(key) = value else {
            return KeyRange::none();
        };
        match comparison {
            Comparison::Equal => self.only(*key),
            Comparison::Apart => self,
            Comparison::Below => self.below(*key),
            Comparison::AtMost => self.at_most(*key),
            Comparison::Above => self.above(*key),
            Comparison::AtLeast => self.at_least(*key),
        }
    }
}
