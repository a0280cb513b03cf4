use crate::point::{Pair, Point};
use crate::row::Row;

// The elements that corners refer to, each list in the order in which they came.
// kept: colours beside positions, since a scan may have fewer of them, which is told where a face needs one
#[derive(Drop)]
pub struct Attributes {
    pub positions: Row<Point>,
    pub colours: Row<Point>,
    pub textures: Row<Pair>,
    pub normals: Row<Point>,
}
