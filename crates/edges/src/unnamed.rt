use book::book::Book;
use book::cells::Cells;
use elements::corner::{Face, VertexIndices};
use elements::error::LoadError;
use elements::point::Point;
use elements::row::Row;
use std::alloc::Global;
use std::process::Abort;
use std::test::Fail;
use tables::hashed::HashedTable;
use tables::key::Reference;
use tables::searched::SearchedTable;
use tables::table::CornerTable;

// A book with four positions and this face.
#[tactic(auto, using(elements::proofs::ZeroFacts::zero_is))]
fn four(rt: &impl Abort, heap: Global, text: &[u8]) -> Result<Book, Fail> {
    let corner = VertexIndices { v: 0, vt: 0, vn: 0 };
    let mut book = Book::new(Cells {
        positions: vec![in heap; Point::ZERO; 4]?,
        colours: Vec::new(heap),
        textures: Vec::new(heap),
        normals: Vec::new(heap),
        corners: vec![in heap; corner; 8]?,
        faces: vec![in heap; Face { start: 0, count: 0 }; 1]?,
    });
    for _ in 0..4 {
        assert_eq!(rt; book.position(0.0, 0.0, 0.0), Ok(()));
    }
    assert_eq!(rt; book.face(text), Ok(()));
    Ok(book)
}

// A list of four cells that was used before.
fn used(rt: &impl Abort, heap: Global) -> Result<Row<u32>, Fail> {
    let mut list = Row::new(vec![in heap; 7; 4]?);
    assert_eq!(rt; list.push(9), Ok(()));
    Ok(list)
}

// Asks for the unnamed positions of a book with this face, by a table that had a key before.
fn listed<T: CornerTable<Reference>>(
    rt: &impl Abort,
    heap: Global,
    text: &[u8],
    table: &mut T,
    list: &mut Row<u32>,
) -> Result<Result<(), LoadError>, Fail> {
    let _ = table.enter(Reference { at: 3 });
    let answer = four(rt, heap, text)?.unnamed(table, list);
    for at in 0..4 {
        assert_eq!(rt; table.find(&Reference { at }), None);
    }
    Ok(answer)
}

fn holds(rt: &impl Abort, list: &Row<u32>, count: usize, cells: &[u32]) {
    assert_eq!(rt; list.len(), count);
    for (held, cell) in list.cells.iter().zip(cells.iter()) {
        assert_eq!(rt; *held, *cell);
    }
}

fn lists(
    rt: &impl Abort,
    heap: Global,
    text: &[u8],
    count: usize,
    cells: &[u32],
) -> Result<(), Fail> {
    let mut list = used(rt, heap)?;
    let mut hashed = HashedTable::new(heap, vec![in heap; Reference { at: 0 }; 4]?)?;
    assert_eq!(rt; listed(rt, heap, text, &mut hashed, &mut list)?, Ok(()));
    holds(rt, &list, count, cells);
    Ok(())
}

#[test]
fn unnamed_positions_are_listed(rt: HostRuntime) -> Result<(), Fail> {
    let heap = rt.alloc();
    lists(&rt, heap, b"", 4, &[0, 1, 2, 3])?;
    lists(&rt, heap, b"2 3 2", 2, &[0, 3, 0, 0])?;
    lists(&rt, heap, b"1 4 3 2", 0, &[0, 0, 0, 0])?;
    lists(&rt, heap, b"1//9 5 0 -9 9/2 3", 2, &[1, 3, 0, 0])
}

// With a table of two places and a list of so many cells.
fn refuses(
    rt: &impl Abort,
    heap: Global,
    text: &[u8],
    cells: usize,
    error: LoadError,
) -> Result<(), Fail> {
    let mut list = Row::new(vec![in heap; 7; cells]?);
    let mut two = SearchedTable::new(vec![in heap; Reference { at: 0 }; 2]?);
    assert_eq!(rt; listed(rt, heap, text, &mut two, &mut list)?, Err(error));
    holds(rt, &list, 0, &[0, 0]);
    Ok(())
}

#[test]
fn one_cell_short(rt: HostRuntime) -> Result<(), Fail> {
    let heap = rt.alloc();
    refuses(&rt, heap, b"1 2 3", 2, LoadError::TableFull)?;
    refuses(&rt, heap, b"1 2 3 1", 0, LoadError::TableFull)?;
    refuses(&rt, heap, b"1 2 1 9", 1, LoadError::MeshFull)?;
    refuses(&rt, heap, b"", 3, LoadError::MeshFull)
}
