ghost use Rattle.std.specs.Prelude.{◌≡◌, ℕ, ◌+◌, ◌*◌, min, List, [], length, IfOk};
ghost use Rattle.elements.specs.Cells.{room_of};
ghost use Rattle.elements.specs.Rows.{room};
ghost use Rattle.tables.specs.Searching.{meanings};
ghost use Rattle.tables.specs.Hashing.{Hashed};
ghost use Rattle.tables.specs.Probes.{Probed};

use crate::key::Key;
use crate::probe::{Probe, walk};
use crate::table::{CornerTable, add};
use elements::row::Row;
use std::alloc::{AllocError, Global};

// A table whose keys are found through slots, each free or with one more than a key's place.
// There are more than twice as many slots as keys, so that a walk is short and always comes to a free slot.
// kept: slots beside the keys and no map of std, which asks for memory as it grows; a slot is one word, so 0 and no `Option`
#[derive(Drop)]
pub struct HashedTable<K: Key> {
    held: Row<K>,
    slots: Vec<u32>,
    ghost enough: { length slots.items ≡ 2 * room held + 1 },
}

impl<K: Key> HashedTable<K> {
    // A sound table without keys that has room for as many as there are cells, up to 16,777,216.
    // It makes its slots here, once; no call of the table allocates.
    pub fn new(heap: Global, cells: Vec<K>) -> Result<HashedTable<K>, AllocError>
        ensures sound { IfOk result (λ t. Hashed K.Key.digest (meanings K.Key.meaning t.held) t.slots.items) }
        ensures none { IfOk result (λ t. meanings K.Key.meaning t.held ≡ []) }
        ensures capacity { IfOk result (λ t. room t.held ≡ room_of (length cells.items)) }
    {
        let held = Row::new(cells);
        let slots = vec![in heap; 0u32; 2 * held.room() + 1]?;
        Ok(HashedTable { held, slots })
    }

    fn look(&self, key: &K) -> Probe
        ensures { Probed K.Key.digest (K.Key.meaning key.now) (meanings K.Key.meaning self.now.held) self.now.slots.items result }
    {
        walk(self.held.as_slice(), &self.slots, key)
    }
}

impl<K: Key> CornerTable<K> for HashedTable<K> {
    ghost keys = { λ t. meanings K.Key.meaning t.held };

    ghost capacity = { λ t. room t.held };

    ghost sound = { λ t. Hashed K.Key.digest (meanings K.Key.meaning t.held) t.slots.items };

    fn empty(&mut self) {
        self.slots.fill(0);
        self.held.empty();
    }

    fn find(&self, key: &K) -> Option<u32> {
        match self.look(key) {
            Probe::Found(place) => Some(place),
            _ => None,
        }
    }

    fn enter(&mut self, key: K) -> Option<u32> {
        match self.look(&key) {
            Probe::Found(place) => Some(place),
            Probe::Past => None,
            Probe::Free(p) => {
                let place = add(&mut self.held, key)?;
                self.slots[p] = place + 1;
                Some(place)
            }
        }
    }
}
