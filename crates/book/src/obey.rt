ghost use Rattle.std.specs.Prelude.{◌≡◌};
ghost use Rattle.mesh.specs.Lists.{rooms as mesh_rooms};
ghost use Rattle.book.specs.Asked.{request};
ghost use Rattle.book.specs.Cases.{Worked};
ghost use Rattle.book.specs.Held.{rooms as rooms_of, contained, left};
ghost use Rattle.book.specs.History.{History};
ghost use Rattle.book.specs.Obeyed.{Untouched};
ghost use Rattle.book.specs.Rules.{Does};

use crate::book::Book;
use crate::calls::{Answer, Call, Reply};
use mesh::mesh::Mesh;
use mesh::numbering::Numbering;

// One call on a book; an export writes into this mesh, by these tables.
// kept: book, mesh and tables apart, since the caller owns and lends each, and mesh and tables may be others at the next call
#[tactic(auto, using(crate::proofs::HistoryFacts::history))]
pub fn obey<N: Numbering>(
    book: &mut Book,
    mesh: &mut Mesh,
    tables: &mut N,
    call: Call<'_>,
) -> Answer
    ensures history { History }
    ensures cases { Worked }
    ensures rooms { rooms_of book.new ≡ rooms_of book.old }
    ensures mesh_rooms { mesh_rooms mesh.new.lists ≡ mesh_rooms mesh.old.lists }
    ensures capacities { (N.Numbering.stock tables.new).capacities ≡ (N.Numbering.stock tables.old).capacities }
    ensures untouched { Untouched (request (mesh_rooms mesh.old.lists) (N.Numbering.stock tables.old).capacities call.entry) (left mesh.old (N.Numbering.stock tables.old)) (left mesh.new (N.Numbering.stock tables.new)) }
    ensures sound { N.Numbering.sound tables.old → N.Numbering.sound tables.new }
    ensures does { Does (rooms_of book.old) (contained book.old) (request (mesh_rooms mesh.old.lists) (N.Numbering.stock tables.old).capacities call.entry) result (left mesh.new (N.Numbering.stock tables.new)) (contained book.new) }
{
    match call {
        Call::Position(x, y, z) => book.position(x, y, z)?,
        Call::Colour(x, y, z) => book.colour(x, y, z)?,
        Call::Texture(u, v) => book.texture(u, v)?,
        Call::Normal(x, y, z) => book.normal(x, y, z)?,
        Call::Face(text) => book.face(text)?,
        Call::Export(options, material) => {
            let (written, skipped) = book.export(options, material, mesh, tables)?;
            return Ok(Reply::Exported(written, skipped));
        }
    }
    Ok(Reply::Done)
}
