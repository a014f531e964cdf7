//! A range of a list that is about to be replaced.
ghost use Rattle.std.specs.Prelude.{◌≡◌, ◌+◌, ◌≤◌, ◌++◌, take, drop, IfOk, IfErr, IsOk, length, vec_len, vec_capacity};

/// A list, of which a range is to be replaced by a middle. The list has the room for it, so that it can be kept, and can be given up.
///
/// Kept it is the list with the middle in the range's place, given up the list as it was. Neither takes memory, and only what is behind the
/// range moves, where the middle is longer or shorter than the range.
#[derive(Drop)]
pub struct Splice<T> {
    items: Vec<T>,
    from: usize,
    to: usize,
    middle: Vec<T>,
    ghost order: { from ≤ to },
    ghost within: { to ≤ vec_len items },
    ghost room: { from + (vec_len items + vec_len middle) ≤ vec_capacity items + to },
}

impl<T: Copy + Drop> Splice<T> {
    ghost use Rattle.wrapper_parts.specs.Splices.{before_of, after_of, front_of, middle_of, back_of};

    /// A list, of which the items from a place up to another are to be replaced by a middle. It fails for want of memory alone, and then the
    /// list comes back. Where the middle is no longer than the range it takes none.
    pub fn new(items: Vec<T>, from: usize, to: usize, middle: Vec<T>) -> Result<Splice<T>, Vec<T>>
        requires order { from ≤ to }
        requires within { to ≤ vec_len items }
        ensures before { IfOk result (λ s. before_of s ≡ items.items) }
        ensures front { IfOk result (λ s. front_of s ≡ take from items.items) }
        ensures middle { IfOk result (λ s. middle_of s ≡ middle.items) }
        ensures back { IfOk result (λ s. back_of s ≡ drop to items.items) }
        ensures succeeds { from + vec_len middle ≤ to → IsOk result }
        ensures err { IfErr result (λ v. v.items ≡ items.items) }
    {
        let mut items = items;
        let more = middle.len().saturating_sub(to - from);
        match items.try_reserve(more) {
            Ok(()) => Ok(Splice {
                items,
                from,
                to,
                middle,
            }),
            Err(_) => Err(items),
        }
    }

    /// The items in front of the range.
    pub fn front(&self) -> &[T]
        ensures { result.now ≡ front_of self.now }
    {
        &self.items[..self.from]
    }

    /// The items that are to stand in the range's place.
    pub fn middle(&self) -> &[T]
        ensures { result.now ≡ middle_of self.now }
    {
        &self.middle
    }

    /// The items behind the range.
    pub fn back(&self) -> &[T]
        ensures { result.now ≡ back_of self.now }
    {
        &self.items[self.to..]
    }

    /// The list with the middle in the range's place. It cannot fail.
    pub fn kept(self) -> Vec<T>
        ensures { result.items ≡ after_of self }
    {
        let Splice {
            mut items,
            from,
            to,
            middle,
        } = self;
        if middle.len() <= to - from {
            close_up(&mut items, from, to, &middle);
        } else {
            spread(&mut items, from, to, &middle);
        }
        items
    }

    /// The list as it was. It cannot fail.
    pub fn given_up(self) -> Vec<T>
        ensures { result.items ≡ before_of self }
    {
        self.items
    }
}

// Overwrites the items from a place on.
fn overwrite<T: Copy>(items: &mut Vec<T>, at: usize, by: &[T])
    requires { at + length by.now ≤ vec_len items.old }
    ensures items { items.new.items ≡ take at items.old.items ++ by.now ++ drop (at + length by.now) items.old.items }
    ensures len { vec_len items.new ≡ vec_len items.old }
    ensures capacity { vec_capacity items.new ≡ vec_capacity items.old }
{
    let end = at + by.len();
    items.slice_mut(at..end).copy_from_slice(by);
}

// Of the items from a place on, the first ones go behind the others.
fn turn<T>(items: &mut Vec<T>, from: usize, count: usize)
    requires { from + count ≤ vec_len items.old }
    ensures items { items.new.items ≡ take from items.old.items ++ drop (from + count) items.old.items ++ take count (drop from items.old.items) }
    ensures len { vec_len items.new ≡ vec_len items.old }
{
    items.slice_mut(from..).rotate_left(count);
}

// Puts no more items than a range has in its place. What is behind the range moves down.
fn close_up<T: Copy + Drop>(items: &mut Vec<T>, from: usize, to: usize, middle: &[T])
    requires fits { from + length middle.now ≤ to }
    requires within { to ≤ vec_len items.old }
    ensures { items.new.items ≡ take from items.old.items ++ middle.now ++ drop to items.old.items }
{
    let end = from + middle.len();
    let over = to - end;
    overwrite(items, from, middle);
    turn(items, end, over);
    items.truncate(items.len() - over);
}

// Puts at least as many items as a range has in its place, where there is room. What is behind the range moves up.
fn spread<T: Copy>(items: &mut Vec<T>, from: usize, to: usize, middle: &[T])
    requires order { from ≤ to }
    requires fits { to ≤ from + length middle.now }
    requires within { to ≤ vec_len items.old }
    requires room { from + (vec_len items.old + length middle.now) ≤ vec_capacity items.old + to }
    ensures { items.new.items ≡ take from items.old.items ++ middle.now ++ drop to items.old.items }
{
    let behind = items.len() - to;
    let (first, more) = middle.split_at(to - from);
    overwrite(items, from, first);
    let _ = items.extend_from_slice(more);
    turn(items, to, behind);
}
