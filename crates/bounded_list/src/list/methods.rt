// What a list can be asked, and how it grows.
ghost use Rattle.std.specs.Prelude.{◌≡◌, ◌<◌, ◌≤◌, [], ◌∷◌, ◌++◌, length, MatchOption, MatchResult, ◌==◌, slice_index_or, slice_set};
ghost use Rattle.bounded_list.specs.Contents.{records, contents, room};

use super::List;

impl<'a, T: Copy> List<'a, T> {
    // The empty list, with room for as many records as `items` has.
    pub fn new(items: &'a mut [T]) -> List<'a, T>
        ensures contents { contents result ≡ [] }
        ensures room { room result ≡ length items.old }
        ensures records { records result ≡ items.old }
        ensures named { result.items.ghost_name ≡ items.entry.ghost_name }
    {
        List { items, len: 0 }
    }

    pub fn len(&self) -> usize
        ensures { result ≡ length (contents self.now) }
    {
        self.len
    }

    pub fn is_empty(&self) -> bool
        ensures { result ≡ (length (contents self.now) == 0) }
    {
        self.len == 0
    }

    pub fn is_full(&self) -> bool
        ensures { result ≡ (length (contents self.now) == room self.now) }
    {
        self.len == self.items.len()
    }

    // How many records the list has room for in all.
    pub fn capacity(&self) -> usize
        ensures { result ≡ room self.now }
    {
        self.items.len()
    }

    pub fn as_slice(&self) -> &[T]
        ensures { result.now ≡ contents self.now }
    {
        &self.items[..self.len]
    }

    // The record at place `i`, counted from 0.
    pub fn get(&self, i: usize) -> Option<T>
        ensures { MatchOption result (length (contents self.now) ≤ i) (λ x. (i < length (contents self.now)) × (x ≡ slice_index_or (contents self.now) i x)) }
    {
        self.as_slice().get(i).copied()
    }

    // Puts `x` at the end; a full list gives it back.
    pub fn push(&mut self, x: T) -> Result<(), T>
        ensures cases { MatchResult result (λ _. (length (contents self.old) < room self.old) × (contents self.new ≡ contents self.old ++ x ∷ []) × (records self.new ≡ slice_set (records self.old) (length (contents self.old)) x)) (λ y. (y ≡ x) × (length (contents self.old) ≡ room self.old) × (contents self.new ≡ contents self.old) × (records self.new ≡ records self.old)) }
        ensures room { room self.new ≡ room self.old }
        ensures named { self.new.items.ghost_name ≡ self.old.items.ghost_name }
    {
        if self.is_full() {
            return Err(x);
        }
        self.items[self.len] = x;
        self.len += 1;
        Ok(())
    }

    // Empties the list. The caller's records stay as they are.
    pub fn clear(&mut self)
        ensures contents { contents self.new ≡ [] }
        ensures room { room self.new ≡ room self.old }
        ensures records { records self.new ≡ records self.old }
        ensures named { self.new.items.ghost_name ≡ self.old.items.ghost_name }
    {
        self.len = 0;
    }
}
