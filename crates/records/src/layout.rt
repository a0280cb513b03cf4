ghost use Rattle.std.specs.Prelude.{◌≡◌, ℕ, ◌+◌, ◌*◌, ◌<◌, ◌≤◌, ◌↔◌, IsTrue, length, MatchOption, slice_index, slice_index_or, Float};
ghost use Rattle.records.specs.Layout.{kind_of, size as bytes_of, options_of, padded, float_at, Stands};

use crate::kind::Kind;
use crate::record::Record;
use crate::word::{float, word};
use elements::options::LoadOptions;
use std::array;

// The lowest head word of kind 1: a kind stands in the top four bits.
const KIND: u32 = 1 << 28;

// The flags of an export are below this.
const FLAGS: u32 = 32;

// The most bytes that a face text has on a tape.
const MOST_TEXT: usize = 4096;

// The kind of the record that begins here; 0 where no whole word is left.
// kept: a number, since the four bits are told as they stand, unknown kinds too
pub fn kind(tape: &[u8]) -> u8
    ensures { result ≡ kind_of tape.now }
{
    if tape.len() < 4 {
        return 0;
    }
    (word(tape, 0) / KIND) as u8
}

// How many bytes a text of so many takes up: whole words.
fn whole_words(bytes: usize) -> usize
    requires { bytes < 65536 }
    ensures value { result ≡ padded bytes }
    ensures least { bytes ≤ result }
    ensures bound { result < bytes + 4 }
{
    (bytes + 3) / 4 * 4
}

// The numbers after a head word, up to three.
fn floats<const N: usize>(tape: &[u8]) -> Option<[f32; N]>
    requires { N ≤ 3 }
    ensures { MatchOption result (length tape.now < 4 + 4 * N)
        (λ xs. (4 + 4 * N ≤ length tape.now) × ((k : ℕ) (e : Float) → k < N → slice_index_or xs k e ≡ float_at tape.now (4 + 4 * k))) }
{
    if tape.len() < 4 + 4 * N {
        return None;
    }
    Some(array::from_fn(|k| float(tape, 4 + 4 * k)))
}

// The options whose flags a number holds, a bit for each.
// kept: a function and no `From`, since neither type is this crate's
pub(crate) fn options(flags: u8) -> LoadOptions
    ensures { result ≡ options_of flags }
{
    LoadOptions {
        single_index: flags & 1 != 0,
        triangulate: flags & 2 != 0,
        ignore_points: flags & 4 != 0,
        ignore_lines: flags & 8 != 0,
        merge_identical_points: flags & 16 != 0,
    }
}

// Whether the bytes are all zero.
fn zeros(bytes: &[u8]) -> bool
    ensures { IsTrue result ↔ ((i : ℕ) → i < length bytes.now → slice_index bytes.now i ≡ 0) }
{
    bytes.iter().all(|byte| *byte == 0)
}

// A face with a text of so many bytes, which whole words hold, filled up with zeros.
// kept: `if` and no `then_some`, which leaves both outcomes in one goal, open without a case split by hand
fn face(tape: &[u8], bytes: usize) -> Option<Record>
    ensures { MatchOption result
        (bytes ≤ 4096 → 4 + padded bytes ≤ length tape.now → ((i : ℕ) → 4 + bytes ≤ i → i < 4 + padded bytes → slice_index tape.now i ≡ 0) → ⊥)
        (λ x. (x ≡ Record.Face bytes) × (bytes ≤ 4096) × (4 + padded bytes ≤ length tape.now) × ((i : ℕ) → 4 + bytes ≤ i → i < 4 + padded bytes → slice_index tape.now i ≡ 0)) }
{
    if bytes > MOST_TEXT {
        return None;
    }
    let filler = tape.get(4 + bytes..4 + whole_words(bytes))?;
    if zeros(filler) {
        Some(Record::Face(bytes as u16))
    } else {
        None
    }
}

impl Record {
    // How many bytes the record takes up on its tape.
    pub fn size(&self) -> usize
        ensures { result ≡ bytes_of self.now }
    {
        match self {
            Record::Position(..) | Record::Colour(..) | Record::Normal(..) => 16,
            Record::Texture(..) => 12,
            Record::Face(bytes) => 4 + whole_words(usize::from(*bytes)),
            Record::Export(_) => 4,
        }
    }
}

// The record that begins here.
// kept: `?` and no `map` over the numbers, which leaves the goals of its four calls open without answers by hand
pub fn read(tape: &[u8]) -> Option<Record>
    ensures { MatchOption result ((x : Record) → Stands tape.now x → ⊥) (λ x. Stands tape.now x) }
{
    if tape.len() < 4 {
        return None;
    }
    let head = word(tape, 0);
    match (Kind::try_from(head / KIND).ok()?, head % KIND) {
        (Kind::Position, 0) => {
            let [x, y, z] = floats::<3>(tape)?;
            Some(Record::Position(x, y, z))
        }
        (Kind::Colour, 0) => {
            let [x, y, z] = floats::<3>(tape)?;
            Some(Record::Colour(x, y, z))
        }
        (Kind::Texture, 0) => {
            let [u, v] = floats::<2>(tape)?;
            Some(Record::Texture(u, v))
        }
        (Kind::Normal, 0) => {
            let [x, y, z] = floats::<3>(tape)?;
            Some(Record::Normal(x, y, z))
        }
        (Kind::Face, bytes) => face(tape, bytes as usize),
        (Kind::Export, flags) if flags < FLAGS => Some(Record::Export(flags as u8)),
        _ => None,
    }
}
