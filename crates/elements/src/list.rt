ghost use Rattle.std.specs.Prelude.{◌≡◌, ◌+◌, ◌<◌, ◌≤◌, min, length, replicate, is_ok, Some, None, MatchOption, nat_lt, slice_index_or};
ghost use Rattle.elements.specs.Cells.{room_of as most_of, added, blanked};

use std::error::Error;
use std::fmt;

// The most elements that a list has, however many cells it is lent.
pub const MOST: usize = 16_777_216;

// A list has no cell left for one element more.
#[derive(Clone, Copy, PartialEq, Eq, Debug)]
pub struct Full;

impl fmt::Display for Full {
    fn fmt<W: fmt::Write>(&self, f: &mut fmt::Formatter<W>) -> fmt::Result {
        f.write_str("the list has no cell left")
    }
}

impl Error for Full {}

// kept: functions over lent cells and a count, a form that the project asks for: any memory can hold a list.

// How many elements `cells` cells have room for.
pub fn room_of(cells: usize) -> usize
    ensures { result ≡ most_of cells }
{
    cells.min(MOST)
}

// Writes one element after the first `count`, where a cell is left for it.
pub fn append<T: Copy>(cells: &mut [T], count: usize, item: T) -> Result<(), Full>
    ensures granted { is_ok result ≡ nat_lt count (most_of (length cells.old)) }
    ensures cells { cells.new ≡ added (is_ok result) cells.old count item }
{
    if count >= room_of(cells.len()) {
        return Err(Full);
    }
    cells[count] = item;
    Ok(())
}

// Writes `blank` into every cell that a list may use.
pub fn clear<T: Copy>(cells: &mut [T], blank: T)
    ensures { cells.new ≡ blanked cells.old blank }
{
    let room = room_of(cells.len());
    fill(&mut cells[..room], blank);
}

// Writes `item` into every cell.
// kept: a loop, since the slice's own `fill` asks of a clone what `Copy` does not say
pub fn fill<T: Copy>(cells: &mut [T], item: T)
    ensures { cells.new ≡ replicate (length cells.old) item }
{
    for cell in cells.iter_mut() {
        *cell = item;
    }
}

// The element at a place of the list of the first `count` cells.
pub fn read<T: Copy>(cells: &[T], count: usize, at: usize) -> Option<T>
    ensures some { MatchOption result (min count (most_of (length cells.now)) ≤ at) (λ x. (at < min count (most_of (length cells.now))) × (x ≡ slice_index_or cells.now at x)) }
{
    cells[..count.min(room_of(cells.len()))].get(at).copied()
}
