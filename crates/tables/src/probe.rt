ghost use Rattle.std.specs.Prelude.{◌≡◌, ℕ, ◌^◌, ◌<◌, ◌≤◌, map, length};
ghost use Rattle.tables.specs.Hashing.{slot_of};
ghost use Rattle.tables.specs.Probes.{Scanned, Probed};

use crate::key::Key;

// What a walk over the slots has come to: the key's place, a free slot, or the end.
#[derive(Clone, Copy, PartialEq, Eq, Debug)]
pub(crate) enum Probe {
    Found(u32),
    Free(usize),
    Past,
}

// Walks over all slots from where the key's hash points, round the end, up to the key or a free slot.
pub(crate) fn walk<K: Key>(keys: &[K], slots: &[u32], key: &K) -> Probe
    requires { (0 < length slots.now) × (length slots.now ≤ 2 ^ 32) }
    ensures { Probed K.Key.digest (K.Key.meaning key.now) (map K.Key.meaning keys.now) slots.now result }
{
    let start = first_slot(key.hash(), slots.len());
    match scan(keys, slots, start, slots.len(), key) {
        Probe::Past => scan(keys, slots, 0, start, key),
        found => found,
    }
}

// Where the walk for a key with this hash starts: the hash's upper half, scaled to the number of slots, which takes no division.
pub(crate) fn first_slot(hash: u64, slots: usize) -> usize
    requires { (0 < slots) × (slots ≤ 2 ^ 32) }
    ensures is { result ≡ slot_of hash slots }
    ensures inside { result < slots }
{
    (((hash >> 32) * slots as u64) >> 32) as usize
}

// Walks over the slots from `from` up to `to`.
fn scan<K: Key>(keys: &[K], slots: &[u32], from: usize, to: usize, key: &K) -> Probe
    requires { (from ≤ to) × (to ≤ length slots.now) }
    ensures { Scanned (K.Key.meaning key.now) (map K.Key.meaning keys.now) slots.now from to result }
{
    for (i, slot) in slots[from..to].iter().enumerate() {
        if *slot == 0 {
            return Probe::Free(from + i);
        }
        let place = *slot - 1;
        // In a sound table a place always has its key; in any other the walk goes on.
        if keys.get(place as usize).is_some_and(|held| held.same(key)) {
            return Probe::Found(place);
        }
    }
    Probe::Past
}
