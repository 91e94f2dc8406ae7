// A list of at most N items, in the value itself: nothing is allocated. The kit's `arrayvec` does not serve here: its `ArrayVec` is not
// `Copy`, and asks that the items have a default.
#![tactic(auto)]

ghost use Rattle.std.specs.Prelude.{◌≡◌, ⊤, ◌<◌, ◌≤◌, ◌==◌, [], ◌∷◌, ◌++◌, length};

use std::alloc::AllocError;

// The items in use are the first `many`. What stands past them means nothing.
pub struct FixedList<T, const N: usize> {
    items: [T; N],
    many: usize,
    ghost few: { many ≤ N },
    ghost long: { length items ≡ N },
}

// A struct with a ghost field derives no `Clone` over a type parameter.
impl<T: Copy, const N: usize> Clone for FixedList<T, N> {
    ghost is_clone = { λ x y. y ≡ x };

    ghost is_infallible = { λ _. ⊤ };

    fn clone(&self) -> Result<FixedList<T, N>, AllocError> {
        Ok(*self)
    }
}

impl<T: Copy, const N: usize> Copy for FixedList<T, N> {}

impl<T: Copy, const N: usize> FixedList<T, N> {
    ghost use Rattle.std.specs.Option.{option_map};
    ghost use Rattle.fixed_list.specs.FixedLists.{IsLast, at_most, in_use};

    // A list of no items. The blank stands where no item is yet.
    pub fn new(blank: T) -> FixedList<T, N>
        ensures { in_use result ≡ [] }
    {
        FixedList {
            items: [blank; N],
            many: 0,
        }
    }

    // A list of the items given; none where they are more than N.
    pub fn from_slice(items: &[T], blank: T) -> Option<FixedList<T, N>>
        ensures { option_map in_use result ≡ at_most N items.now }
    {
        if items.len() > N {
            return None;
        }
        let mut copied = [blank; N];
        copied[..items.len()].copy_from_slice(items);
        Some(FixedList {
            items: copied,
            many: items.len(),
        })
    }

    // The items.
    pub fn as_slice(&self) -> &[T]
        ensures items { result.now ≡ in_use self.now }
        ensures few { length result.now ≤ N }
    {
        &self.items[..self.many]
    }

    // How many items there are.
    pub fn len(&self) -> usize
        ensures many { result ≡ length (in_use self.now) }
        ensures few { result ≤ N }
    {
        self.as_slice().len()
    }

    // Whether there is no room for one more.
    pub fn is_full(&self) -> bool
        ensures many { result ≡ (length (in_use self.now) == N) }
        ensures few { length (in_use self.now) ≤ N }
    {
        self.many == N
    }

    // Puts an item at the end. There must be room.
    pub fn push(&mut self, item: T)
        requires { length (in_use self.old) < N }
        ensures { in_use self.new ≡ in_use self.old ++ item ∷ [] }
    {
        self.items[self.many] = item;
        self.many += 1;
    }

    // Takes the last item out; none where there is none.
    pub fn pop(&mut self) -> Option<T>
        ensures { IsLast (in_use self.old) result (in_use self.new) }
    {
        if self.many == 0 {
            return None;
        }
        self.many -= 1;
        Some(self.items[self.many])
    }

    // Takes all items out.
    pub fn clear(&mut self)
        ensures { in_use self.new ≡ [] }
    {
        self.many = 0;
    }
}
