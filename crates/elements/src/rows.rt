ghost use Rattle.std.specs.Prelude.{◌≡◌, ◌<◌, ◌≤◌, true, false, [], MatchOption, is_ok, slice_index_or};
ghost use Rattle.elements.specs.Cells.{blanked};
ghost use Rattle.elements.specs.Rows.{held, items, room, roomy, Pushed};

use crate::list::{self, Full};
use crate::row::Row;

impl<T: Copy> Row<T> {
    // An empty list over these cells.
    pub fn new(cells: Vec<T>) -> Row<T>
        ensures { (result.cells ≡ cells) × (result.count ≡ 0) }
    {
        Row { cells, count: 0 }
    }

    // How many elements there are.
    pub fn len(&self) -> usize
        ensures { result ≡ self.now.count }
    {
        self.as_slice().len()
    }

    // How many elements there is room for.
    pub fn room(&self) -> usize
        ensures { result ≡ room self.now }
    {
        list::room_of(self.cells.len())
    }

    // The elements, in order.
    pub fn as_slice(&self) -> &[T]
        ensures { result.now ≡ items self.now }
    {
        &self.cells[..self.count]
    }

    // The element at a place.
    pub fn get(&self, at: usize) -> Option<T>
        ensures { MatchOption result (self.now.count ≤ at) (λ x. (at < self.now.count) × (x ≡ slice_index_or (items self.now) at x)) }
    {
        list::read(&self.cells, self.count, at)
    }

    // One element more, if a cell is left for it.
    pub fn push(&mut self, item: T) -> Result<(), Full>
        ensures tells { is_ok result ≡ roomy self.old }
        ensures granted { is_ok result ≡ true → Pushed self.old self.new item }
        ensures refused { is_ok result ≡ false → self.new ≡ self.old }
        ensures room { room self.new ≡ room self.old }
    {
        let count = self.count;
        list::append(&mut self.cells, count, item)?;
        self.count = count + 1;
        Ok(())
    }

    // No element; the cells keep what they hold.
    pub fn empty(&mut self)
        ensures cells { self.new.cells ≡ self.old.cells }
        ensures count { self.new.count ≡ 0 }
    {
        self.count = 0;
    }

    // No element, and `blank` in every cell.
    pub fn clear(&mut self, blank: T)
        ensures cells { held self.new ≡ blanked (held self.old) blank }
        ensures count { self.new.count ≡ 0 }
        ensures room { room self.new ≡ room self.old }
    {
        self.empty();
        list::clear(&mut self.cells, blank);
    }
}
