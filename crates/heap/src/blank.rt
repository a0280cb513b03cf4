ghost use Rattle.std.specs.Prelude.{◌≡◌, IfOk};
ghost use Rattle.elements.specs.Cells.{room_of};
ghost use Rattle.elements.specs.Contents.{nothing};
ghost use Rattle.mesh.specs.Lists.{rooms as mesh_rooms};
ghost use Rattle.mesh.specs.Outcome.{Cleared};
ghost use Rattle.book.specs.Held.{rooms as book_rooms, contained};
ghost use Rattle.heap.specs.Rooms.{book_of, mesh_of};

use book::book::Book;
use elements::corner::{Face, MISSING_INDEX, VertexIndices};
use elements::point::{Pair, Point};
use mesh::mesh::Mesh;
use std::alloc::{AllocError, Global};

// A corner that names nothing: what fills a place that has none.
pub const NO_CORNER: VertexIndices = VertexIndices {
    v: MISSING_INDEX,
    vt: MISSING_INDEX,
    vn: MISSING_INDEX,
};

// A blank book on the heap, with so many places in each of its lists.
#[tactic(auto, using(elements::proofs::ZeroFacts::zero_is))]
pub fn blank_book(heap: Global, places: usize) -> Result<Book, AllocError>
    ensures blank { IfOk result (λ b. contained b ≡ nothing) }
    ensures rooms { IfOk result (λ b. book_rooms b ≡ book_of (room_of places)) }
{
    Ok(Book::new(book::cells::Cells {
        positions: vec![in heap; Point::ZERO; places]?,
        colours: vec![in heap; Point::ZERO; places]?,
        textures: vec![in heap; Pair::ZERO; places]?,
        normals: vec![in heap; Point::ZERO; places]?,
        corners: vec![in heap; NO_CORNER; places]?,
        faces: vec![in heap; Face { start: 0, count: 0 }; places]?,
    }))
}

// A cleared mesh on the heap, with so many places in each of its lists.
#[tactic(auto, using(elements::proofs::ZeroFacts::zero_is))]
pub fn blank_mesh(heap: Global, places: usize) -> Result<Mesh, AllocError>
    ensures cleared { IfOk result Cleared }
    ensures rooms { IfOk result (λ m. mesh_rooms m.lists ≡ mesh_of (room_of places)) }
{
    Ok(Mesh::new(mesh::cells::Cells {
        positions: vec![in heap; Point::ZERO; places]?,
        vertex_color: vec![in heap; Point::ZERO; places]?,
        texcoords: vec![in heap; Pair::ZERO; places]?,
        normals: vec![in heap; Point::ZERO; places]?,
        indices: vec![in heap; 0; places]?,
        face_arities: vec![in heap; 0; places]?,
        vertex_color_indices: vec![in heap; 0; places]?,
        texcoord_indices: vec![in heap; 0; places]?,
        normal_indices: vec![in heap; 0; places]?,
        remap: vec![in heap; 0; places]?,
    }))
}
