// Lists of at most N elements, held in place: no list allocates, and a copy is a copy of its array.
#![tactic(auto)]

ghost use Rattle.std.specs.Prelude.{◌≡◌, ◌+◌, ◌<◌, ◌≤◌, ◌==◌, [], ◌∷◌, ◌++◌, length, take, drop, ⊤};

use std::alloc::AllocError;

// Writes `part` into `items`, from an index on.
pub fn put<T: Copy>(items: &mut [T], from: usize, part: &[T])
    requires { from + length part.now ≤ length items.old }
    ensures { items.new ≡ take from items.old ++ (part.now ++ drop (from + length part.now) items.old) }
{
    let end = from + part.len();
    items[from..end].copy_from_slice(part);
}

// The first `count` of the items. What the others hold is seen nowhere.
// The library's `ArrayVec` is no `Copy` type, and its `clone` may fail, as nothing here may. Beside ghost fields neither can be derived.
pub struct Bounded<T, const N: usize> {
    items: [T; N],
    count: usize,
    ghost fits: { count ≤ N },
    ghost whole: { length items ≡ N },
}

impl<T: Copy, const N: usize> Copy for Bounded<T, N> {}

impl<T: Copy, const N: usize> Clone for Bounded<T, N> {
    ghost is_clone = { λ a b. b ≡ a };

    ghost is_infallible = { λ _. ⊤ };

    fn clone(&self) -> Result<Bounded<T, N>, AllocError> {
        Ok(*self)
    }
}

impl<T: Copy, const N: usize> Bounded<T, N> {
    ghost use Rattle.bounded.specs.Listed.{listed};

    // An empty list. The places that are not in use hold `blank`.
    pub fn new(blank: T) -> Bounded<T, N>
        ensures { listed result ≡ [] }
    {
        Bounded {
            items: [blank; N],
            count: 0,
        }
    }

    // The elements.
    pub fn as_slice(&self) -> &[T]
        ensures items { result.now ≡ listed self.now }
        ensures fits { length result.now ≤ N }
    {
        &self.items[..self.count]
    }

    // How many elements there are.
    pub fn len(&self) -> usize
        ensures count { result ≡ length (listed self.now) }
        ensures fits { result ≤ N }
    {
        self.as_slice().len()
    }

    // Whether there is none.
    pub fn is_empty(&self) -> bool
        ensures { result ≡ (length (listed self.now) == 0) }
    {
        self.count == 0
    }

    // Whether there is no room for one more.
    pub fn is_full(&self) -> bool
        ensures { result ≡ (length (listed self.now) == N) }
    {
        self.count == N
    }

    // Puts an element behind the others.
    pub fn push(&mut self, element: T)
        requires { length (listed self.old) < N }
        ensures { listed self.new ≡ listed self.old ++ element ∷ [] }
    {
        self.items[self.count] = element;
        self.count += 1;
    }

    // Puts the elements of a slice behind the others.
    pub fn extend(&mut self, elements: &[T])
        requires { length (listed self.old) + length elements.now ≤ N }
        ensures { listed self.new ≡ listed self.old ++ elements.now }
    {
        let end = self.count + elements.len();
        let items = &mut self.items[..];
        put(items, self.count, elements);
        self.count = end;
    }

    // Takes all elements out.
    pub fn clear(&mut self)
        ensures { listed self.new ≡ [] }
    {
        self.count = 0;
    }
}
