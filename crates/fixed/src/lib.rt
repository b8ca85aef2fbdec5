// Room for at most N items, with no allocation.
#![tactic(auto)]

ghost use Rattle.std.specs.Prelude.{◌≡◌, ◌<◌, ◌≤◌, [], ◌∷◌, ◌++◌, length, take, OnErr, MatchResult};

mod room;

pub use room::Fixed;

/// There was no room for one more item.
#[derive(Clone, Copy, Debug, PartialEq, Eq)]
pub struct Full;

impl<T: Copy, const N: usize> Fixed<T, N> {
    // No items. The filler stands in the places that hold none.
    pub fn new(filler: T) -> Fixed<T, N>
        ensures items { result ≡ [] }
    {
        Fixed {
            room: [filler; N],
            len: 0,
        }
    }

    pub fn as_slice(&self) -> &[T]
        ensures items { result.now ≡ self.now }
        ensures few { length result.now ≤ N }
    {
        &self.room[..self.len]
    }

    // Adds an item at the end, if there is room for it.
    pub fn push(&mut self, item: T) -> Result<(), Full>
        ensures room { MatchResult result (λ _. length self.old < N) (λ _. N ≤ length self.old) }
        ensures items { self.new ≡ take N (self.old ++ item ∷ []) }
        ensures kept { OnErr result (self.new ≡ self.old) }
    {
        if self.len == N {
            return Err(Full);
        }
        self.room[self.len] = item;
        self.len += 1;
        Ok(())
    }
}
