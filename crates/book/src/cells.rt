use elements::corner::{Face, VertexIndices};
use elements::point::{Pair, Point};

// The memory of a book: the cells of each of its lists.
// kept: the fields of its lists again, since no type parameter stands for the kind of a list
#[derive(Drop)]
pub struct Cells {
    pub positions: Vec<Point>,
    pub colours: Vec<Point>,
    pub textures: Vec<Pair>,
    pub normals: Vec<Point>,
    pub corners: Vec<VertexIndices>,
    pub faces: Vec<Face>,
}
