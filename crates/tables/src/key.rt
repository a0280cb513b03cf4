ghost use Rattle.std.specs.Prelude.{◌≡◌, ℕ, T, List};
ghost use Rattle.elements.specs.Bits.{point_bits, pair_bits};
ghost use Rattle.elements.specs.Corners.{refs};
ghost use Rattle.tables.specs.Keys.{reference_refs, mixed, digest as digested};

use elements::corner::VertexIndices;
use elements::point::{Pair, Point};

// What can be entered into a table: something that means a list of whole numbers.
// kept: a trait of its own and no `Eq` with `Hash`, which floats have not; a block for each kind of key, since a key is what it means
pub trait Key: Copy {
    ghost meaning: { Self → List ℕ };

    ghost digest: { List ℕ → ℕ };

    // Two keys are the same exactly when they mean the same list.
    fn same(&self, other: &Self) -> bool
        ensures { (T result → meaning self.now ≡ meaning other.now) × (meaning self.now ≡ meaning other.now → T result) };

    // A number worked out from what the key means alone, so that same keys have the same one.
    fn hash(&self) -> u64
        ensures { result ≡ digest (meaning self.now) };
}

// One reference of a corner, to a position, a texture or a normal.
#[derive(Clone, Copy, PartialEq, Eq, Debug)]
pub struct Reference {
    pub at: usize,
}

impl Key for VertexIndices {
    ghost meaning = { refs };

    ghost digest = { digested };

    fn same(&self, other: &Self) -> bool {
        self == other // in all three references
    }

    fn hash(&self) -> u64 {
        hash_of(&[self.v as u64, self.vt as u64, self.vn as u64])
    }
}

impl Key for Reference {
    ghost meaning = { reference_refs };

    ghost digest = { digested };

    fn same(&self, other: &Self) -> bool {
        self == other // in all 64 bits
    }

    fn hash(&self) -> u64 {
        hash_of(&[self.at as u64])
    }
}

impl Key for Point {
    ghost meaning = { point_bits };

    ghost digest = { digested };

    fn same(&self, other: &Self) -> bool {
        // by bits, so that 0 and -0 differ; one by one, since whole arrays take longer to compare
        let [x, y, z] = self.bits();
        let [a, b, c] = other.bits();
        x == a && y == b && z == c
    }

    fn hash(&self) -> u64 {
        hash_of(&self.bits().map(u64::from))
    }
}

impl Key for Pair {
    ghost meaning = { pair_bits };

    ghost digest = { digested };

    fn same(&self, other: &Self) -> bool {
        self.bits() == other.bits()
    }

    fn hash(&self) -> u64 {
        hash_of(&self.bits().map(u64::from))
    }
}

// The hash of a key that means these numbers. How many they are goes in last: without that product, references that rise by certain steps would crowd.
fn hash_of(numbers: &[u64]) -> u64
    ensures { result ≡ digested numbers.now }
{
    let all = numbers.iter().fold(0, |h, x| mix(h, *x));
    mix(all, numbers.len() as u64)
}

// One number more in a hash: the upper half of the product depends on all bits of both numbers, and is folded onto the lower half, from which the next product spreads it again.
fn mix(h: u64, x: u64) -> u64
    ensures { result ≡ mixed h x }
{
    let y = (h ^ x).wrapping_mul(0x9e37_79b9_7f4a_7c15);
    y ^ (y >> 32)
}
