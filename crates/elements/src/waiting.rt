ghost use Rattle.std.specs.Prelude.{T};
ghost use Rattle.elements.specs.Rows.{items};
ghost use Rattle.elements.specs.Tiles.{tiles};

use crate::corner::{Face, VertexIndices};
use crate::row::Row;

// The faces that wait for an export: stretches of the waiting corners, one after the other, with no corner left over.
#[derive(Drop)]
pub struct Waiting {
    pub corners: Row<VertexIndices>,
    pub faces: Row<Face>,
    ghost tiled: { T (tiles 0 (items faces) corners.count) },
}
