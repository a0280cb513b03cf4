use book::book::Book;
use book::cells::Cells;
use elements::corner::{Face, VertexIndices};
use elements::error::LoadError;
use elements::point::Point;
use std::alloc::Global;
use std::test::Fail;

// A blank book with room for two positions, no texture, three corners and two faces.
#[tactic(auto, using(elements::proofs::ZeroFacts::zero_is))]
fn small(heap: Global) -> Result<Book, Fail> {
    let corner = VertexIndices { v: 0, vt: 0, vn: 0 };
    Ok(Book::new(Cells {
        positions: vec![in heap; Point::ZERO; 2]?,
        colours: vec![in heap; Point::ZERO; 1]?,
        textures: Vec::new(heap),
        normals: vec![in heap; Point::ZERO; 1]?,
        corners: vec![in heap; corner; 3]?,
        faces: vec![in heap; Face { start: 0, count: 0 }; 2]?,
    }))
}

// Infinite numbers and a negative zero are numbers; NaN is refused before a full list is.
#[test]
fn full_lists(rt: HostRuntime) -> Result<(), Fail> {
    let mut book = small(rt.alloc())?;
    assert_eq!(rt; book.position(1.0 / 0.0, -0.0, -1.0 / 0.0), Ok(()));
    assert_eq!(rt;
        book.position(0.0, 0.0 / 0.0, 0.0),
        Err(LoadError::NotANumber)
    );
    assert_eq!(rt; book.position(0.0, 0.0, 0.0), Ok(()));
    assert_eq!(rt; book.position(0.0, 0.0, 0.0), Err(LoadError::BookFull));
    assert_eq!(rt;
        book.position(0.0 / 0.0, 0.0, 0.0),
        Err(LoadError::NotANumber)
    );
    assert_eq!(rt; book.texture(0.0, 0.0), Err(LoadError::BookFull));
    assert_eq!(rt; book.colour(0.0, 0.0, 0.0), Ok(()));
    assert_eq!(rt; book.colour(0.0, 0.0, 0.0), Err(LoadError::BookFull));
    assert_eq!(rt; book.normal(0.0, 0.0, 1.0), Ok(()));
    Ok(())
}

// A text that fits exactly, one that is a corner too long, a list of faces that is full; foreign bytes and bad texts come first.
#[test]
fn full_faces(rt: HostRuntime) -> Result<(), Fail> {
    let mut book = small(rt.alloc())?;
    assert_eq!(rt; book.face(b"1 2 3 4"), Err(LoadError::BookFull));
    assert_eq!(rt; book.face(b"1 2 3 4 x"), Err(LoadError::FaceParseError));
    assert_eq!(rt; book.face(b"1 x \x80"), Err(LoadError::NotAscii));
    assert_eq!(rt; book.face(b"1 2 3"), Ok(()));
    assert_eq!(rt; book.face(b"1"), Err(LoadError::BookFull));
    assert_eq!(rt; book.face(b" \t\r\n "), Ok(()));
    assert_eq!(rt; book.face(b""), Err(LoadError::BookFull));
    Ok(())
}
