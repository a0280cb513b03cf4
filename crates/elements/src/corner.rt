// The reference that names no element.
// kept: a number and no `Option`, as in tobj: what counts back from before the first wraps, and may come to just this
pub const MISSING_INDEX: usize = usize::MAX;

// One corner of a face: its references to a position, a texture and a normal.
#[derive(Clone, Copy, PartialEq, Eq, Debug)]
pub struct VertexIndices {
    pub v: usize,
    pub vt: usize,
    pub vn: usize,
}

// A waiting face: `count` of the waiting corners, from `start` on.
// kept: a stretch of the one list, since a face with a list of its own would need memory of its own
#[derive(Clone, Copy, PartialEq, Eq, Debug)]
pub struct Face {
    pub start: usize,
    pub count: usize,
}
