ghost use Rattle.std.specs.Prelude.{◌≡◌};
ghost use Rattle.mesh.specs.Surface.{empty_surface};
ghost use Rattle.mesh.specs.Lists.{surface, rooms, Blank};
ghost use Rattle.mesh.specs.Outcome.{Cleared, Zeros};

use crate::lists::Lists;
use crate::mesh::Mesh;
use elements::point::{Pair, Point};

impl Mesh {
    // No element, no material, and zero in every cell.
    pub(crate) fn clear(&mut self)
        ensures cleared { Cleared self.new }
        ensures rooms { rooms self.new.lists ≡ rooms self.old.lists }
    {
        self.material_id = None;
        self.lists.clear();
    }
}

impl Lists {
    // No element in any list, and zero in every cell.
    #[tactic(auto, using(elements::proofs::ZeroFacts::zero_is))]
    pub(crate) fn clear(&mut self)
        ensures none { surface self.new ≡ empty_surface }
        ensures remap { self.new.remap.count ≡ 0 }
        ensures rooms { rooms self.new ≡ rooms self.old }
        ensures zeros { Blank self.old → Zeros self.new × Blank self.new }
    {
        self.positions.clear(Point::ZERO);
        self.vertex_color.clear(Point::ZERO);
        self.texcoords.clear(Pair::ZERO);
        self.normals.clear(Point::ZERO);
        self.indices.clear(0);
        self.face_arities.clear(0);
        self.vertex_color_indices.clear(0);
        self.texcoord_indices.clear(0);
        self.normal_indices.clear(0);
        self.remap.clear(0);
    }
}
