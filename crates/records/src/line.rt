use book::calls::{Answer, Reply};

// The numbers of a mesh's indices and positions: a list has 16,777,216 elements at the most.
#[derive(Clone, Copy, PartialEq, Eq, Debug)]
pub struct Size {
    pub indices: u32,
    pub positions: u32,
}

// What is told of a record: its kind and its answer, and the size of the mesh where the answer is a granted export.
// Fields lie as they stand here, so that a line takes up 48 bytes: the tape program has 262,145 of them.
#[derive(Clone, Copy, PartialEq, Eq, Debug)]
pub struct Line {
    // kept: a number, since the four bits are told as they stand, unknown kinds too
    pub kind: u8,
    pub size: Option<Size>,
    pub answer: Answer,
}

impl Line {
    // What a line holds before anything is told.
    pub const BLANK: Line = Line {
        kind: 0,
        size: None,
        answer: Ok(Reply::Done),
    };
}
