use std::marker::Model;

// Kept: no `ArrayVec` of the kit, whose `new` asks `Default` of the items: an element of a listing has no such value, since its value is from 1 on.
/// At most `N` items, in the order in which they came.
#[derive(Drop)]
pub struct Fixed<T, const N: usize> {
    pub(crate) room: [T; N],
    pub(crate) len: usize,
}

// Clauses see the items.
impl<T, const N: usize> Model for Fixed<T, N> {
    ghost use Rattle.std.specs.Prelude.{◌≡◌, ◌≤◌, List, length, take};

    ghost Value = { List T };

    ghost view = { λ f. take f.len f.room };

    ghost invariant = { λ f. (f.len ≤ N) × (length f.room ≡ N) };
}
