ghost use Rattle.std.specs.Prelude.{◌≤◌, MatchOption, is_ok};
ghost use Rattle.elements.specs.Rows.{items};
ghost use Rattle.mesh.specs.Single.{Kept, Becomes, placed};
ghost use Rattle.mesh.specs.Streams.{Found, LookedUp, Writes, Keeps, Takes};

use elements::corner::MISSING_INDEX;
use elements::list::Full;
use elements::row::Row;
use tables::key::Reference;
use tables::table::CornerTable;

// What a corner names among the elements of one kind: nothing where there are none, what the corner before it named, or an
// element, which is known first by its reference and, once that is entered, by its number.
#[derive(Clone, Copy)]
pub(crate) enum Named<R, T> {
    Nothing,
    Again(u32),
    Element(R, T),
}

// What a reference names after the corners with these numbers; none if it asks for an element that is not there.
pub(crate) fn look_up<T: Copy>(
    elements: &Row<T>,
    numbers: &Row<u32>,
    reference: usize,
) -> Option<Named<Reference, T>>
    ensures { LookedUp elements.now numbers.now reference result }
{
    if elements.len() == 0 {
        return Some(Named::Nothing);
    }
    if reference != MISSING_INDEX {
        return element(elements, reference);
    }
    match numbers.as_slice().last().copied() {
        Some(number) => Some(Named::Again(number)),
        None => element(elements, 0),
    }
}

// The element at a place, by its reference.
fn element<T: Copy>(elements: &Row<T>, at: usize) -> Option<Named<Reference, T>>
    ensures { MatchOption result (elements.now.count ≤ at) (λ n. Found (items elements.now) at n) }
{
    elements
        .get(at)
        .map(|item| Named::Element(Reference { at }, item))
}

// The number of what is named, which is entered unless the table has it; none where a new reference meets a full table.
pub(crate) fn enter<T: Copy, Table: CornerTable<Reference>>(
    table: &mut Table,
    named: Named<Reference, T>,
) -> Option<Named<u32, T>>
    ensures kept { Keeps Table.CornerTable table.old table.new }
    ensures taken { Takes Table.CornerTable table.old table.new named result }
{
    Some(match named {
        Named::Nothing => Named::Nothing,
        Named::Again(number) => Named::Again(number),
        Named::Element(reference, item) => Named::Element(table.enter(reference)?, item),
    })
}

// Writes the element of a number, unless the list has it.
pub(crate) fn place<T: Copy>(elements: &mut Row<T>, number: u32, item: T) -> Result<(), Full>
    ensures { Becomes elements.old elements.new (placed (items elements.old) number item) (is_ok result) }
{
    if (number as usize) < elements.len() {
        return Ok(());
    }
    elements.push(item)
}

// Writes what is named, and its number.
pub(crate) fn write<T: Copy>(
    elements: &mut Row<T>,
    numbers: &mut Row<u32>,
    named: Named<u32, T>,
) -> Result<(), Full>
    ensures elements { Kept elements.old elements.new }
    ensures numbers { Kept numbers.old numbers.new }
    ensures written { Writes elements.old numbers.old named elements.new numbers.new (is_ok result) }
{
    match named {
        Named::Nothing => Ok(()),
        Named::Again(number) => numbers.push(number),
        Named::Element(number, item) => {
            place(elements, number, item)?;
            numbers.push(number)
        }
    }
}
