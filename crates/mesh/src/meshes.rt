ghost use Rattle.std.specs.Prelude.{◌≡◌, Bool, length};
ghost use Rattle.elements.specs.Cells.{room_of as most_of};
ghost use Rattle.elements.specs.Rows.{room};
ghost use Rattle.mesh.specs.Lists.{rooms, Blank, Spare};
ghost use Rattle.mesh.specs.Outcome.{Cleared, rooms_of};

use crate::cells::Cells;
use crate::lists::Lists;
use crate::mesh::Mesh;
use elements::list::MOST;
use elements::row::Row;

impl Mesh {
    // An empty mesh over these cells; of each list it takes no more cells than it has room for.
    pub fn new(cells: Cells) -> Mesh
        ensures cleared { Cleared result }
        ensures rooms { rooms result.lists ≡ rooms_of cells }
    {
        let mut lists = full_lists(cells);
        lists.clear();
        Mesh {
            lists,
            material_id: None,
        }
    }

    // The lists of the mesh, to be read.
    pub fn lists(&self) -> &Lists
        ensures { result.now ≡ self.now.lists }
    {
        &self.lists
    }

    // The material that it was exported with.
    pub fn material_id(&self) -> Option<usize>
        ensures { result ≡ self.now.material_id }
    {
        self.material_id
    }
}

// Lists that take all the cells that they have room for, with whatever these hold.
fn full_lists(cells: Cells) -> Lists
    ensures blank { Blank result }
    ensures rooms { rooms result ≡ rooms_of cells }
{
    Lists {
        positions: full_row(cells.positions),
        vertex_color: full_row(cells.vertex_color),
        texcoords: full_row(cells.texcoords),
        normals: full_row(cells.normals),
        indices: full_row(cells.indices),
        face_arities: full_row(cells.face_arities),
        vertex_color_indices: full_row(cells.vertex_color_indices),
        texcoord_indices: full_row(cells.texcoord_indices),
        normal_indices: full_row(cells.normal_indices),
        remap: full_row(cells.remap),
    }
}

// A list of no more of these cells than it has room for, with no cell past it.
fn full_row<T: Copy>(mut cells: Vec<T>) -> Row<T>
    ensures spare { (zero? : T → Bool) → Spare zero? result }
    ensures room { room result ≡ most_of (length cells.items) }
{
    cells.truncate(MOST);
    let count = cells.len();
    Row { cells, count }
}
