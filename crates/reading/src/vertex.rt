ghost use Rattle.std.specs.Prelude.{◌≡◌, ℕ, List, Option};
ghost use Rattle.reading.specs.declared.counts.Counts.{Counts};
ghost use Rattle.reading.specs.Pieces.{whole};
ghost use Rattle.reading.specs.Corner.{corner};
ghost use Rattle.reading.specs.Readers.{token_stretch, part_place};

use crate::counts::Counts;
use crate::number::{part_value, reference};
use crate::reader::{Part, Parts, Token};
use elements::corner::{MISSING_INDEX, VertexIndices};

// What can be read from a token: `VertexIndices::parse`, for a type of another crate.
pub trait Parse: Sized {
    ghost meaning: { Counts → List ℕ → Option Self };

    // What the token means, if it reads.
    fn parse(token: &[u8], counts: Counts) -> Option<Self>
        ensures { result ≡ meaning counts token.now };
}

impl Parse for VertexIndices {
    ghost meaning = { λ n token. corner n (whole token) };

    fn parse(token: &[u8], counts: Counts) -> Option<VertexIndices>
        ensures { result ≡ corner counts (whole token.now) }
    {
        token_corner(
            Token {
                bytes: token,
                at: 0,
            },
            counts,
        )
    }
}

// The corner that a token means, if its first three parts read and those after them are empty.
pub(crate) fn token_corner(token: Token, counts: Counts) -> Option<VertexIndices>
    ensures { result ≡ corner counts (token_stretch token.entry) }
{
    let mut parts = Parts::new(token);
    let first = parts.next();
    let second = parts.next();
    let third = parts.next();
    if !parts.vacant() {
        return None;
    }
    let v = part_reference(first, counts.positions)?;
    let vt = part_reference(second, counts.textures)?;
    let vn = part_reference(third, counts.normals)?;
    Some(VertexIndices { v, vt, vn })
}

// What a part refers to in a list of so many; an absent part is as an empty one.
fn part_reference(part: Option<Part>, count: usize) -> Option<usize>
    ensures { result ≡ part_place count part.entry }
{
    match part {
        Some(Part::Filled { bytes, .. }) => part_value(bytes).map(|named| reference(named, count)),
        _ => Some(MISSING_INDEX),
    }
}
