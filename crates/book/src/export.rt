ghost use Rattle.std.specs.Prelude.{◌≡◌};
ghost use Rattle.elements.specs.Rows.{held};
ghost use Rattle.elements.specs.Contents.{contents};
ghost use Rattle.mesh.specs.Lists.{rooms as mesh_rooms};
ghost use Rattle.mesh.specs.Outcome.{Exported};
ghost use Rattle.book.specs.Held.{rooms as rooms_of, contained, left, Released};
ghost use Rattle.book.specs.Requests.{write_mesh};
ghost use Rattle.book.specs.Rules.{Does, told_export};

use crate::book::Book;
use elements::error::LoadError;
use elements::options::LoadOptions;
use elements::waiting::Waiting;
use mesh::export::export;
use mesh::mesh::Mesh;
use mesh::numbering::Numbering;

impl Book {
    // The mesh of all waiting faces: answers how many were written and how many were skipped, and nothing waits any more.
    // A refused export leaves the book as it was.
    // kept: a tuple inside Ok, a form that the project asks for
    pub fn export<N: Numbering>(
        &mut self,
        options: LoadOptions,
        material: Option<usize>,
        mesh: &mut Mesh,
        tables: &mut N,
    ) -> Result<(usize, usize), LoadError>
        ensures rooms { rooms_of self.new ≡ rooms_of self.old }
        ensures exported { Exported options (contained self.old) material (mesh_rooms mesh.old.lists) (N.Numbering.stock tables.old).capacities mesh.new (N.Numbering.stock tables.new) (N.Numbering.sound tables.new) result }
        ensures does { Does (rooms_of self.old) (contained self.old) (write_mesh options material (mesh_rooms mesh.old.lists) (N.Numbering.stock tables.old).capacities) (told_export result) (left mesh.new (N.Numbering.stock tables.new)) (contained self.new) }
        ensures others { self.new.attributes ≡ self.old.attributes }
        ensures cells { Released result self.old.waiting self.new.waiting }
    {
        let counts = export(
            &self.attributes,
            &self.waiting,
            options,
            material,
            mesh,
            tables,
        )?;
        release(&mut self.waiting);
        Ok(counts)
    }
}

// Lets go of all waiting faces; the cells keep what they hold.
fn release(waiting: &mut Waiting)
    ensures corners { waiting.new.corners.cells ≡ waiting.old.corners.cells }
    ensures faces { waiting.new.faces.cells ≡ waiting.old.faces.cells }
    ensures corner_count { waiting.new.corners.count ≡ 0 }
    ensures face_count { waiting.new.faces.count ≡ 0 }
{
    waiting.corners.empty();
    waiting.faces.empty();
}
