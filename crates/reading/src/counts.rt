// How many positions, textures and normals there are to refer to.
#[derive(Clone, Copy)]
pub struct Counts {
    pub positions: usize,
    pub textures: usize,
    pub normals: usize,
}
