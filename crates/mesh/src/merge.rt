ghost use Rattle.std.specs.Prelude.{◌≡◌, ◌≤◌, true, map, length, is_ok, IfOk};
ghost use Rattle.elements.specs.Checks.{refusal};
ghost use Rattle.elements.specs.Rows.{items};
ghost use Rattle.mesh.specs.Merges.{looked_up, too_many, Fresh, Emptied, Steady, Cut, FirstsKept, RowsMerged};

use elements::error::LoadError;
use elements::list;
use elements::row::Row;
use tables::key::Key;
use tables::table::CornerTable;

// Merges the elements that agree bit for bit: only the first of them stays, the rest close up, and each number follows its element.
// Finds `remap` and `table` empty, and leaves them so.
pub(crate) fn merge_identical_points<E: Key, T: CornerTable<E>>(
    points: &mut Row<E>,
    indices: &mut Row<u32>,
    remap: &mut Row<u32>,
    table: &mut T,
    blank: E,
) -> Result<(), LoadError>
    requires { Fresh T.CornerTable table.old remap.old points.old.count }
    ensures merged { is_ok result ≡ true → RowsMerged E.Key.meaning points.old points.new indices.old indices.new }
    ensures refused { refusal result ≡ too_many (T.CornerTable.capacity table.old) (map E.Key.meaning (items points.old)) }
    ensures points { Steady blank points.old points.new }
    ensures indices { Steady 0 indices.old indices.new }
    ensures remap { Steady 0 remap.old remap.new }
    ensures cleared { remap.new.count ≡ 0 }
    ensures table { Emptied T.CornerTable table.old table.new }
{
    // kept: `0..`, since after `..count`, which was tried, nothing is known of a vector's cells
    let outcome = keep_firsts(&mut points.cells[0..points.count], remap, table);
    if let Ok(firsts) = outcome {
        shorten(points, firsts, blank);
        renumber(indices, remap.as_slice());
    }
    table.empty();
    shorten(remap, 0, 0);
    outcome.map(|_| ())
}

// The first `count` elements alone; `blank` fills the cells of the others.
pub(crate) fn shorten<X: Copy>(row: &mut Row<X>, count: usize, blank: X)
    requires { count ≤ row.old.count }
    ensures { Cut row.old row.new count blank }
{
    list::fill(&mut row.cells[count..row.count], blank);
    row.count = count;
}

// Walks the elements from the first to the last: each one's number goes into `remap`, and each that is the first of its kind moves up
// behind those before it. Answers how many there are of these.
fn keep_firsts<E: Key, T: CornerTable<E>>(
    cells: &mut [E],
    remap: &mut Row<u32>,
    table: &mut T,
) -> Result<usize, LoadError>
    requires { Fresh T.CornerTable table.old remap.old (length cells.old) }
    ensures kept { IfOk result (λ n. FirstsKept E.Key.meaning cells.old cells.new n (items remap.new)) }
    ensures refused { refusal result ≡ too_many (T.CornerTable.capacity table.old) (map E.Key.meaning cells.old) }
    ensures remap { Steady 0 remap.old remap.new }
    ensures capacity { T.CornerTable.capacity table.new ≡ T.CornerTable.capacity table.old }
{
    let mut firsts = 0;
    // kept: by index, since the walk also writes the cells that it has left behind
    for at in 0..cells.len() {
        let item = cells[at];
        let place = table.enter(item).ok_or(LoadError::TableFull)?;
        // `remap` has room for every element
        remap.push(place).unwrap();
        if place as usize == firsts {
            cells[firsts] = item;
            firsts += 1;
        }
    }
    Ok(firsts)
}

// Each number becomes what `remap` has at its place; one that has no place there stays.
fn renumber(indices: &mut Row<u32>, remap: &[u32])
    ensures items { items indices.new ≡ looked_up remap.now (items indices.old) }
    ensures steady { Steady 0 indices.old indices.new }
{
    // kept: `0..`, as above
    for number in indices.cells[0..indices.count].iter_mut() {
        *number = remap.get(*number as usize).copied().unwrap_or(*number);
    }
}
