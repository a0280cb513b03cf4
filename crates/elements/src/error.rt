// Why a call was refused, each with the number by which it is known.
#[derive(Clone, Copy, PartialEq, Eq, Debug)]
pub enum LoadError {
    NotANumber = 1,
    NotAscii = 2,
    FaceParseError = 3,
    InvalidLoadOptionConfig = 4,
    BadRecord = 5,
    BookFull = 6,
    InvalidPolygon = 7,
    FaceVertexOutOfBounds = 8,
    FaceTexCoordOutOfBounds = 9,
    FaceNormalOutOfBounds = 10,
    FaceColorOutOfBounds = 11,
    TableFull = 12,
    MeshFull = 13,
}
