ghost use Rattle.std.specs.Prelude.{◌≡◌, ◌+◌, ◌≤◌, true, not, List, [], ◌∷◌, ◌++◌, length, is_some, is_ok, if◌then◌else◌, Some, None};
ghost use Rattle.std.specs.Option.{unwrap_or};
ghost use Rattle.elements.specs.declared.corner.VertexIndices.{VertexIndices};
ghost use Rattle.elements.specs.declared.error.LoadError.TheVariants.{NotAscii, FaceParseError, BookFull};
ghost use Rattle.elements.specs.Checks.{refusal, first};
ghost use Rattle.elements.specs.Contents.{faces_of, sources};
ghost use Rattle.elements.specs.Rows.{held, items, room};
ghost use Rattle.reading.specs.declared.counts.Counts.{Counts};
ghost use Rattle.reading.specs.Ascii.{ascii};
ghost use Rattle.reading.specs.Face.{face as face_of, appended};
ghost use Rattle.book.specs.Held.{rooms as rooms_of, contained, Awaits};
ghost use Rattle.book.specs.Requests.{add_face};
ghost use Rattle.book.specs.Rules.{Follows, told, corners_read, wait_checks};
ghost use Rattle.book.specs.Waits.{Extended};

use crate::book::Book;
use elements::corner::{Face, VertexIndices};
use elements::error::LoadError;
use elements::row::Row;
use elements::waiting::Waiting;
use reading::counts::Counts;
use reading::face::{count_corners, is_ascii, parse_face};

impl Book {
    // One face more, from its text. References count from what the book holds now.
    #[tactic(auto, using(crate::proofs::FaceFacts::counts_are))]
    pub fn face(&mut self, text: &[u8]) -> Result<(), LoadError>
        ensures rooms { rooms_of self.new ≡ rooms_of self.old }
        ensures does { Follows (rooms_of self.old) (contained self.old) (add_face text.now) (told result) (contained self.new) }
        ensures cells { Awaits (refusal result) self.old.waiting self.new.waiting (corners_read (sources self.old.attributes) text.now) }
        ensures others { self.new.attributes ≡ self.old.attributes }
    {
        let counts = Counts {
            positions: self.attributes.positions.count,
            textures: self.attributes.textures.count,
            normals: self.attributes.normals.count,
        };
        wait(&mut self.waiting, text, counts)
    }
}

// One face more among those that wait.
#[tactic(auto, using(crate::proofs::WaitFacts::waits))]
fn wait(waiting: &mut Waiting, text: &[u8], counts: Counts) -> Result<(), LoadError>
    ensures refused { refusal result ≡ first (wait_checks (room waiting.old.corners) (room waiting.old.faces) (faces_of waiting.old) (face_of counts text.now) text.now) }
    ensures faces { faces_of waiting.new ≡ (if is_ok result then faces_of waiting.old ++ unwrap_or (face_of counts text.now) [] ∷ [] else faces_of waiting.old) }
    ensures cells { Awaits (refusal result) waiting.old waiting.new (unwrap_or (face_of counts text.now) []) }
    ensures corner_room { room waiting.new.corners ≡ room waiting.old.corners }
    ensures face_room { room waiting.new.faces ≡ room waiting.old.faces }
{
    if waiting.faces.count >= waiting.faces.room() {
        return Err(refused(text));
    }
    let start = waiting.corners.count;
    let count = append_corners(&mut waiting.corners, text, counts).ok_or_else(|| refused(text))?;
    waiting.faces.push(Face { start, count }).unwrap();
    Ok(())
}

// Why a text is refused that could not be added.
fn refused(text: &[u8]) -> LoadError
    ensures { (n : Counts) → first ((not (ascii text.now), NotAscii) ∷ (not (is_some (face_of n text.now)), FaceParseError) ∷ (true, BookFull) ∷ []) ≡ Some result }
{
    match count_corners(text) {
        Some(_) => LoadError::BookFull,
        None if is_ascii(text) => LoadError::FaceParseError,
        None => LoadError::NotAscii,
    }
}

// The corners of a text after those of a list, if it reads and there are cells for all of them; their number.
fn append_corners(row: &mut Row<VertexIndices>, text: &[u8], counts: Counts) -> Option<usize>
    ensures answer { result ≡ appended (face_of counts text.now) row.old.count (room row.old) }
    ensures granted { (xs : List VertexIndices) → face_of counts text.now ≡ Some xs → row.old.count + length xs ≤ room row.old → Extended row.old row.new xs }
    ensures kept { result ≡ None → (held row.new ≡ held row.old) × (row.new.count ≡ row.old.count) }
    ensures room { room row.new ≡ room row.old }
{
    let start = row.count;
    let count = parse_face(text, counts, &mut row.cells, start)?;
    row.count = start + count;
    Some(count)
}
