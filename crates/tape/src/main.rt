#![tactic(auto)]

use anyhow::anyhow;
use elements::corner::VertexIndices;
use elements::point::{Pair, Point};
use heap::blank::{NO_CORNER, blank_book, blank_mesh};
use mesh::six_tables::Tables;
use records::line::Line;
use records::play::play;
use std::alloc::{AllocError, Global};
use std::io::Read;
use tables::hashed::HashedTable;
use tables::key::{Key, Reference};

// How much of standard input is read.
const MOST_BYTES: usize = 1_048_576;

// A record takes up at least one word, and a rest that is none has a line too.
const MOST_LINES: usize = MOST_BYTES / 4 + 1;

// How many places each list and each table has.
const PLACES: usize = 256;

// Hashed tables for all six kinds of key.
type HashedTables = Tables<
    HashedTable<VertexIndices>,
    HashedTable<Reference>,
    HashedTable<Reference>,
    HashedTable<Reference>,
    HashedTable<Point>,
    HashedTable<Pair>,
>;

fn hashed<K: Key>(heap: Global, blank: K) -> Result<HashedTable<K>, AllocError> {
    HashedTable::new(heap, vec![in heap; blank; PLACES]?)
}

#[tactic(auto, using(elements::proofs::ZeroFacts::zero_is))]
fn hashed_tables(heap: Global) -> Result<HashedTables, AllocError> {
    let no_reference = Reference { at: 0 };
    Ok(Tables {
        corners: hashed(heap, NO_CORNER)?,
        positions: hashed(heap, no_reference)?,
        textures: hashed(heap, no_reference)?,
        normals: hashed(heap, no_reference)?,
        points: hashed(heap, Point::ZERO)?,
        pairs: hashed(heap, Pair::ZERO)?,
    })
}

// kept: `map_err` and no `context`, which would print the cause too
fn main(rt: HostRuntime) -> anyhow::Result<()> {
    let heap = rt.alloc();
    let mut book = blank_book(heap, PLACES).map_err(|_| anyhow!(
        "tape: no memory for the lists of the book"
    ))?;
    let mut mesh = blank_mesh(heap, PLACES).map_err(|_| anyhow!(
        "tape: no memory for the lists of the mesh"
    ))?;
    let mut tables = hashed_tables(heap).map_err(|_| anyhow!("tape: no memory for the tables"))?;
    // a byte more, so that the end of a tape that fills it is seen without asking for more
    let mut tape = Vec::with_capacity(heap, MOST_BYTES + 1).map_err(|_| anyhow!(
        "tape: no memory for the tape"
    ))?;
    let mut lines = vec![in heap; Line::BLANK; MOST_LINES].map_err(|_| anyhow!(
        "tape: no memory for the answers"
    ))?;
    rt.stdin()
        .take(MOST_BYTES as u64)
        .read_to_end(&mut tape)
        .map_err(|_| anyhow!("tape: standard input could not be read"))?;
    let count = play(&mut book, &mut mesh, &mut tables, &tape, &mut lines);
    for (i, line) in lines[..count].iter().enumerate() {
        println!(rt; "{} {line}", i + 1)?;
    }
    Ok(())
}
