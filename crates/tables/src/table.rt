ghost use Rattle.std.specs.Prelude.{◌≡◌, ℕ, ◌<◌, false, List, [], IfSome};
ghost use Rattle.elements.specs.Cells.{most};
ghost use Rattle.elements.specs.First.{has};
ghost use Rattle.elements.specs.Rows.{room};
ghost use Rattle.tables.specs.Searching.{meanings};
ghost use Rattle.tables.specs.Tables.{Fit, Found, Entering};

use crate::key::Key;
use elements::row::Row;

// A table of different keys, each at the place at which it was entered. A further table has to show just this.
pub trait CornerTable<K: Key> {
    // What the keys mean, in order of entry.
    ghost keys: { Self → List (List ℕ) };
    // How many keys the table has room for.
    ghost capacity: { Self → ℕ };
    // That the keys differ and each can be found.
    ghost sound: { Self → Type 0 };

    // Lets go of all keys, and makes any table sound.
    fn empty(&mut self)
        ensures sound { sound self.new }
        ensures none { keys self.new ≡ [] }
        ensures capacity { capacity self.new ≡ capacity self.old };

    // The key's place, or none.
    fn find(&self, key: &K) -> Option<u32>
        ensures fit { sound self.now → Fit (capacity self.now) (keys self.now) }
        ensures found { sound self.now → Found (K.Key.meaning key.now) (keys self.now) result };

    // The key's place, where a new key takes the next one; none, and no effect, where a new key meets a full table.
    // kept: an `Option`, since a full table is the one refusal
    fn enter(&mut self, key: K) -> Option<u32>
        ensures capacity { capacity self.new ≡ capacity self.old }
        ensures sound { sound self.old → sound self.new }
        ensures fit { sound self.old → Fit (capacity self.new) (keys self.new) }
        ensures entering { sound self.old → Entering (capacity self.old) (K.Key.meaning key) (keys self.old) (keys self.new) result };
}

// Takes a new key in after the others, and answers its place; none, and no effect, where no cell is left.
pub(crate) fn add<K: Key>(held: &mut Row<K>, key: K) -> Option<u32>
    ensures room { room held.new ≡ room held.old }
    ensures below { IfSome result (λ i. i < most) }
    ensures entering { has (meanings K.Key.meaning held.old) (K.Key.meaning key) ≡ false → Entering (room held.old) (K.Key.meaning key) (meanings K.Key.meaning held.old) (meanings K.Key.meaning held.new) result }
{
    let place = held.len() as u32;
    held.push(key).ok()?;
    Some(place)
}
