// How a table is filled and shown.
ghost use Rattle.std.specs.Prelude.{◌≡◌, ◌+◌, ◌<◌, ◌≤◌, [], ◌∷◌, length, drop, is_ok};
ghost use Rattle.tables.specs.Tables.{listed, fits, extended};

use crate::table::Table;

/// More items than there is room for.
#[derive(Clone, Copy, PartialEq, Eq, Debug)]
pub struct Full;

impl<T: Copy, const N: usize> Table<T, N> {
    /// A table of no items; `fill` only takes up the room.
    pub fn new(fill: T) -> Table<T, N>
        ensures { listed result ≡ [] }
    {
        Table {
            items: [fill; N],
            count: 0,
        }
    }

    /// The items.
    pub fn as_slice(&self) -> &[T]
        ensures value { result.now ≡ listed self.now }
        ensures fits { length result.now ≤ N }
    {
        let items = &self.items[..];
        &items[..self.count]
    }

    /// One item more behind the others, if there is room.
    pub fn push(&mut self, item: T) -> Result<(), Full>
        ensures answer { is_ok result ≡ fits N (listed self.old) (item ∷ []) }
        ensures after { listed self.new ≡ extended N (listed self.old) (item ∷ []) }
    {
        if self.count >= N {
            return Err(Full);
        }
        self.items[self.count] = item;
        self.count += 1;
        Ok(())
    }

    /// More items behind the others, if there is room for all of them.
    pub fn append(&mut self, more: &[T]) -> Result<(), Full>
        ensures answer { is_ok result ≡ fits N (listed self.old) more.now }
        ensures after { listed self.new ≡ extended N (listed self.old) more.now }
    {
        let count = self.count;
        if more.len() > N - count {
            return Err(Full);
        }
        let end = count + more.len();
        let items = &mut self.items[..];
        items[count..end].copy_from_slice(more);
        self.count = end;
        Ok(())
    }

    /// The oldest item is let go; nothing is where there is none.
    pub fn remove_first(&mut self)
        ensures { listed self.new ≡ drop 1 (listed self.old) }
    {
        if self.count == 0 {
            return;
        }
        self.items[..self.count].rotate_left(1);
        self.count -= 1;
    }
}
