ghost use Rattle.std.specs.Prelude.{◌≡◌, ℕ, ◌≤◌, min, List, [], map, length, take};
ghost use Rattle.elements.specs.Cells.{most, room_of};
ghost use Rattle.elements.specs.Rows.{room};
ghost use Rattle.elements.specs.First.{Apart};
ghost use Rattle.tables.specs.Searching.{meanings, Searched};
ghost use Rattle.tables.specs.Tables.{Found};

use crate::key::Key;
use crate::table::{CornerTable, add};
use elements::row::Row;

// A table whose keys are searched from the front: it needs nothing but its cells, and is slow where there are many keys.
#[derive(Drop)]
pub struct SearchedTable<K: Key> {
    held: Row<K>,
}

impl<K: Key> SearchedTable<K> {
    // A sound table without keys that has room for as many as there are cells, up to 16,777,216.
    pub fn new(cells: Vec<K>) -> SearchedTable<K>
        ensures sound { Searched K.Key.meaning result.held }
        ensures none { meanings K.Key.meaning result.held ≡ [] }
        ensures capacity { room result.held ≡ room_of (length cells.items) }
    {
        SearchedTable {
            held: Row::new(cells),
        }
    }
}

impl<K: Key> CornerTable<K> for SearchedTable<K> {
    ghost keys = { λ t. meanings K.Key.meaning t.held };

    ghost capacity = { λ t. room t.held };

    ghost sound = { λ t. Searched K.Key.meaning t.held };

    fn empty(&mut self) {
        self.held.empty();
    }

    fn find(&self, key: &K) -> Option<u32> {
        search(&self.held.cells, self.held.count, key)
    }

    fn enter(&mut self, key: K) -> Option<u32> {
        match self.find(&key) {
            None => add(&mut self.held, key),
            found => found,
        }
    }
}

// The place of the key among the first `count` cells, looked for from the front.
fn search<K: Key>(cells: &[K], count: usize, key: &K) -> Option<u32>
    requires { (count ≤ length cells.now) × (count ≤ most) }
    ensures { Apart (map K.Key.meaning (take count cells.now)) → Found (K.Key.meaning key.now) (map K.Key.meaning (take count cells.now)) result }
{
    cells[..count]
        .iter()
        .position(|held| held.same(key))
        .map(|i| i as u32)
}
