use elements::point::{Pair, Point};

// The memory that a mesh is made over: the cells of each of its lists.
// kept: the fields of `Lists` again, since no type parameter stands for the kind of a list, `Vec` here and `Row` there.
#[derive(Drop)]
pub struct Cells {
    pub positions: Vec<Point>,
    pub vertex_color: Vec<Point>,
    pub texcoords: Vec<Pair>,
    pub normals: Vec<Point>,
    pub indices: Vec<u32>,
    pub face_arities: Vec<u32>,
    pub vertex_color_indices: Vec<u32>,
    pub texcoord_indices: Vec<u32>,
    pub normal_indices: Vec<u32>,
    pub remap: Vec<u32>,
}
