ghost use Rattle.mesh.specs.Lists.{Blank};

use crate::lists::Lists;

// A mesh: its lists, with zeros in every cell past a list, and the material that it was exported with.
#[derive(Drop)]
pub struct Mesh {
    pub(crate) lists: Lists,
    pub(crate) material_id: Option<usize>,
    ghost blank: { Blank lists },
}
