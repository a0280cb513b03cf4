use elements::point::{Pair, Point};
use elements::row::Row;

// The lists of a mesh.
// kept: numbers beside elements, as users of tobj know a mesh. That every cell past a list is zero is said of `Mesh` and not here, since
// `Numbering::add_corner` takes any lists.
#[derive(Drop)]
pub struct Lists {
    pub positions: Row<Point>,
    pub vertex_color: Row<Point>,
    pub texcoords: Row<Pair>,
    pub normals: Row<Point>,
    pub indices: Row<u32>,
    pub face_arities: Row<u32>,
    pub vertex_color_indices: Row<u32>,
    pub texcoord_indices: Row<u32>,
    pub normal_indices: Row<u32>,
    // working memory of merging: where each element of the list at hand went
    pub remap: Row<u32>,
}
