ghost use Rattle.std.specs.Prelude.{◌≡◌};
ghost use Rattle.elements.specs.Errors.{number_of};

use crate::error::LoadError;
use std::error::Error;
use std::fmt;

impl LoadError {
    // The number by which the refusal is known.
    pub fn number(self) -> u8
        ensures { result ≡ number_of self }
    {
        self as u8
    }

    // What went wrong, for a person.
    fn meaning(self) -> &'static str {
        match self {
            LoadError::NotANumber => "a coordinate is not a number (NaN)",
            LoadError::NotAscii => "the face text has a byte above 127",
            LoadError::FaceParseError =>
                "a corner of the face text is not v/vt/vn, each a whole number of 64 bits or empty",
            LoadError::InvalidLoadOptionConfig =>
                "single_index and merge_identical_points exclude each other",
            LoadError::BadRecord => "the tape's next record breaks the tape's layout",
            LoadError::BookFull => "a list of the book has no cell left for what is to be added",
            LoadError::InvalidPolygon => "a face without corners cannot be triangulated",
            LoadError::FaceVertexOutOfBounds =>
                "a corner refers to a position that the book does not have",
            LoadError::FaceTexCoordOutOfBounds =>
                "a corner refers to a texture that the book does not have",
            LoadError::FaceNormalOutOfBounds =>
                "a corner refers to a normal that the book does not have",
            LoadError::FaceColorOutOfBounds =>
                "a corner refers to a position that has no colour, in a book with colours",
            LoadError::TableFull => "a table has no place left for a new key",
            LoadError::MeshFull => "a list of the mesh has no cell left for what is to be written",
        }
    }
}

impl fmt::Display for LoadError {
    fn fmt<W: fmt::Write>(&self, f: &mut fmt::Formatter<W>) -> fmt::Result {
        write!(f, "refused with {}: {}", self.number(), self.meaning())
    }
}

impl Error for LoadError {}
