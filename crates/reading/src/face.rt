ghost use Rattle.std.specs.Prelude.{◌≡◌, false, length, Some, None};
ghost use Rattle.std.specs.Option.{option_map};
ghost use Rattle.reading.specs.Ascii.{ascii};
ghost use Rattle.elements.specs.Cells.{room_of};
ghost use Rattle.reading.specs.Face.{face, appended, Counted, Granted};
ghost use Rattle.reading.specs.Laws.{Laws};
ghost use Rattle.reading.specs.Examples.{Readings};

use crate::counts::Counts;
use crate::reader::Tokens;
use crate::vertex::token_corner;
use elements::corner::VertexIndices;
use elements::list::room_of;

// Whether a text has no byte above 127. One that has does not read.
pub fn is_ascii(text: &[u8]) -> bool
    ensures { result ≡ ascii text.now }
{
    text.iter().all(u8::is_ascii)
}

// How many corners a face text has, if it reads.
pub fn count_corners(text: &[u8]) -> Option<usize>
    ensures counted { Counted text.now result }
    ensures ascii { ascii text.now ≡ false → result ≡ None }
    ensures laws { Laws }
    ensures readings { Readings }
{
    let mut count: usize = 0;
    for token in Tokens::new(text) {
        token_corner(token, NO_COUNTS)?;
        count += 1;
    }
    Some(count)
}

// Writes the corners of a face text after the first `start` cells of a list, and says how many there were:
// a text that does not read or does not fit changes no cell.
// kept: none for both, as tobj says no; the book tells them apart
pub fn parse_face(
    text: &[u8],
    counts: Counts,
    cells: &mut [VertexIndices],
    start: usize,
) -> Option<usize>
    ensures answer { result ≡ appended (face counts text.now) start (room_of (length cells.old)) }
    ensures granted { Granted (face counts text.now) start cells.old cells.new result }
    ensures refused { result ≡ None → cells.new ≡ cells.old }
    ensures laws { Laws }
    ensures readings { Readings }
{
    let count = count_corners(text)?;
    let room = room_of(cells.len());
    if start > room || count > room - start {
        return None;
    }
    write_corners(text, counts, &mut cells[start..start + count]);
    Some(count)
}

// Whether a token reads does not depend on the counts.
const NO_COUNTS: Counts = Counts {
    positions: 0,
    textures: 0,
    normals: 0,
};

// Writes the corners of a text that reads into as many cells.
fn write_corners(text: &[u8], counts: Counts, cells: &mut [VertexIndices])
    requires { option_map length (face counts text.now) ≡ Some (length cells.old) }
    ensures { face counts text.now ≡ Some cells.new }
{
    let mut tokens = Tokens::new(text);
    for cell in cells.iter_mut() {
        // Each cell has its token, which reads, so neither `unwrap` fails.
        // kept: `next` by hand, since nothing is known of cells that an adapter of `iter_mut` lends
        let token = tokens.next().unwrap();
        *cell = token_corner(token, counts).unwrap();
    }
}
