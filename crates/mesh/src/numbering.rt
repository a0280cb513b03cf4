ghost use Rattle.std.specs.Prelude.{◌≡◌, ◌≤◌, [], ◌∷◌, length};
ghost use Rattle.elements.specs.Contents.{sources};
ghost use Rattle.mesh.specs.Unfold.{corner};
ghost use Rattle.mesh.specs.Writing.{Stock, empty_stock, Writing, Merging};

use crate::lists::Lists;
use crate::merge_all::merge_points;
use crate::multi::add_vertex_multi_index;
use crate::single::add_vertex;
use crate::six_tables::Tables;
use elements::attributes::Attributes;
use elements::corner::VertexIndices;
use elements::error::LoadError;
use elements::options::LoadOptions;
use elements::point::{Pair, Point};
use tables::key::Reference;
use tables::table::CornerTable;

// The tables of an export, taken as one.
pub trait Numbering {
    // What the tables hold, and what they have room for.
    ghost stock: { Self → Stock };
    // That each table is sound.
    ghost sound: { Self → Type 0 };

    // No keys in any table.
    fn empty_all(&mut self)
        ensures stock { stock self.new ≡ empty_stock (stock self.old).capacities }
        ensures sound { sound self.new };

    // One corner more in the mesh, by one number or by three, as the options ask.
    fn add_corner(
        &mut self,
        options: LoadOptions,
        lists: &mut Lists,
        attributes: &Attributes,
        vert: VertexIndices,
    ) -> Result<(), LoadError>
        ensures { Writing options (sources attributes.now) (corner vert ∷ []) lists.old lists.new (stock self.old) (stock self.new) (sound self.old) (sound self.new) result };

    // Merges what agrees bit for bit.
    fn merge(&mut self, lists: &mut Lists) -> Result<(), LoadError>
        ensures { Merging lists.old lists.new (stock self.old) (stock self.new) (sound self.old) (sound self.new) result };
}

impl<
    Ct: CornerTable<VertexIndices>,
    Pt: CornerTable<Reference>,
    Tt: CornerTable<Reference>,
    Nt: CornerTable<Reference>,
    Qt: CornerTable<Point>,
    Rt: CornerTable<Pair>,
> Numbering for Tables<Ct, Pt, Tt, Nt, Qt, Rt> {
    ghost stock = { λ t. record {
      keys = record { corners = Ct.CornerTable.keys t.corners; positions = Pt.CornerTable.keys t.positions; textures = Tt.CornerTable.keys t.textures; normals = Nt.CornerTable.keys t.normals };
      points = Qt.CornerTable.keys t.points;
      pairs = Rt.CornerTable.keys t.pairs;
      capacities = record { corners = Ct.CornerTable.capacity t.corners; positions = Pt.CornerTable.capacity t.positions; textures = Tt.CornerTable.capacity t.textures; normals = Nt.CornerTable.capacity t.normals; points = Qt.CornerTable.capacity t.points; pairs = Rt.CornerTable.capacity t.pairs };
    } };
    // a corner that repeats a texture's or a normal's number asks its table nothing, so that these hold no more than they have room for is said here
    ghost sound = { λ t. (Ct.CornerTable.sound t.corners × Pt.CornerTable.sound t.positions × Tt.CornerTable.sound t.textures) × (Nt.CornerTable.sound t.normals × Qt.CornerTable.sound t.points × Rt.CornerTable.sound t.pairs)
        × ((length (Tt.CornerTable.keys t.textures) ≤ Tt.CornerTable.capacity t.textures) × (length (Nt.CornerTable.keys t.normals) ≤ Nt.CornerTable.capacity t.normals)) };

    fn empty_all(&mut self) {
        self.corners.empty();
        self.positions.empty();
        self.textures.empty();
        self.normals.empty();
        self.points.empty();
        self.pairs.empty();
    }

    fn add_corner(
        &mut self,
        options: LoadOptions,
        lists: &mut Lists,
        attributes: &Attributes,
        vert: VertexIndices,
    ) -> Result<(), LoadError> {
        if options.single_index {
            add_vertex(lists, &mut self.corners, attributes, vert)
        } else {
            add_vertex_multi_index(
                lists,
                &mut self.positions,
                &mut self.textures,
                &mut self.normals,
                attributes,
                vert,
            )
        }
    }

    fn merge(&mut self, lists: &mut Lists) -> Result<(), LoadError> {
        merge_points(lists, &mut self.points, &mut self.pairs)
    }
}
