ghost use Rattle.std.specs.Prelude.{⊤, ◌≡◌, ◌≤◌, length};

use std::alloc::AllocError;

/// At most `N` items, of which the first `count` count. The fields are public, so that an item is written where it
/// lies. The kit's vector of fixed room is no field of a type that is `Copy`.
pub struct Table<T, const N: usize> {
    pub items: [T; N],
    pub count: usize,
    ghost full: { length items ≡ N },
    ghost few: { count ≤ N },
}

impl<T: Copy, const N: usize> Clone for Table<T, N> {
    ghost is_clone = { λ x y. y ≡ x };

    ghost is_infallible = { λ _. ⊤ };

    fn clone(&self) -> Result<Table<T, N>, AllocError> {
        Ok(*self)
    }
}

impl<T: Copy, const N: usize> Copy for Table<T, N> {}
