// Runs the worked cases through the library and prints what came of each.
#![tactic(auto)]

use book::book::Book;
use book::calls::{Answer, Call, Reply};
use book::obey::obey;
use elements::corner::VertexIndices;
use elements::error::LoadError;
use elements::options::LoadOptions;
use elements::point::{Pair, Point};
use elements::row::Row;
use heap::blank::{NO_CORNER, blank_book, blank_mesh};
use mesh::mesh::Mesh;
use mesh::six_tables::Tables;
use reading::counts::Counts;
use reading::vertex::Parse;
use std::alloc::{AllocError, Global};
use tables::hashed::HashedTable;
use tables::key::{Key, Reference};
use tables::searched::SearchedTable;

// How many places each list and each table has, but where a case gives its table of corners fewer.
const PLACES: usize = 16;

const PLAIN: LoadOptions = LoadOptions {
    single_index: false,
    triangulate: false,
    ignore_points: false,
    ignore_lines: false,
    merge_identical_points: false,
};

const SINGLE: LoadOptions = LoadOptions {
    single_index: true,
    ..PLAIN
};

const TRIANGLES: LoadOptions = LoadOptions {
    triangulate: true,
    ..PLAIN
};

const MERGED: LoadOptions = LoadOptions {
    merge_identical_points: true,
    ..PLAIN
};

// Corners and points are found by hashing, the others from the front.
type CaseTables = Tables<
    HashedTable<VertexIndices>,
    SearchedTable<Reference>,
    SearchedTable<Reference>,
    SearchedTable<Reference>,
    HashedTable<Point>,
    SearchedTable<Pair>,
>;

// What a book holds before its faces come: so many elements of each kind, told apart by their first number.
#[derive(Clone, Copy)]
struct Held {
    positions: u8,
    colours: u8,
    textures: u8,
    normals: u8,
}

const THREE: Held = Held {
    positions: 3,
    colours: 0,
    textures: 3,
    normals: 3,
};

fn searched<K: Key>(heap: Global, blank: K) -> Result<SearchedTable<K>, AllocError> {
    Ok(SearchedTable::new(vec![in heap; blank; PLACES]?))
}

#[tactic(auto, using(elements::proofs::ZeroFacts::zero_is))]
fn case_tables(heap: Global, corners: usize) -> Result<CaseTables, AllocError> {
    let no_reference = Reference { at: 0 };
    Ok(Tables {
        corners: HashedTable::new(heap, vec![in heap; NO_CORNER; corners]?)?,
        positions: searched(heap, no_reference)?,
        textures: searched(heap, no_reference)?,
        normals: searched(heap, no_reference)?,
        points: HashedTable::new(heap, vec![in heap; Point::ZERO; PLACES]?)?,
        pairs: searched(heap, Pair::ZERO)?,
    })
}

// The elements of a case go into its book.
fn fill(book: &mut Book, held: Held) -> Result<(), LoadError> {
    for i in 0..held.positions {
        book.position(f32::from(i), 0.0, 0.0)?;
    }
    for i in 0..held.colours {
        book.colour(f32::from(i), 0.0, 0.0)?;
    }
    for i in 0..held.textures {
        book.texture(f32::from(i), 0.5)?;
    }
    for i in 0..held.normals {
        book.normal(0.0, 0.0, f32::from(i))?;
    }
    Ok(())
}

// The number of an answer: 0 where the call was granted.
fn number(answer: Answer) -> u8 {
    answer.err().map_or(0, LoadError::number)
}

fn print_numbers(rt: &HostRuntime, name: &str, row: &Row<u32>) -> anyhow::Result<()> {
    print!(rt; "  {name}")?;
    for number in row.as_slice() {
        print!(rt; " {number}")?;
    }
    println!(rt; "")?;
    Ok(())
}

// What an export left in its mesh.
fn print_mesh(rt: &HostRuntime, mesh: &Mesh) -> anyhow::Result<()> {
    let lists = mesh.lists();
    println!(rt;
        "  positions {} textures {} colours {}",
        lists.positions.len(),
        lists.texcoords.len(),
        lists.vertex_color.len()
    )?;
    print_numbers(rt, "indices", &lists.indices)?;
    print_numbers(rt, "arities", &lists.face_arities)?;
    print_numbers(rt, "texture indices", &lists.texcoord_indices)?;
    print_numbers(rt, "colour indices", &lists.vertex_color_indices)
}

// Faces for a book, and an export of it by a table of corners with so many places.
#[derive(Clone, Copy)]
struct Case<'a> {
    name: &'a str,
    corners: usize,
    texts: &'a [&'a [u8]],
    options: LoadOptions,
}

impl<'a> Case<'a> {
    fn new(name: &'a str, texts: &'a [&'a [u8]], options: LoadOptions) -> Self {
        Case {
            name,
            corners: PLACES,
            texts,
            options,
        }
    }

    // The case on a book of its own that holds these elements.
    fn run(&self, rt: &HostRuntime, held: Held) -> anyhow::Result<()> {
        let mut book = blank_book(rt.alloc(), PLACES)?;
        fill(&mut book, held)?;
        self.export(rt, &mut book)
    }

    fn export(&self, rt: &HostRuntime, book: &mut Book) -> anyhow::Result<()> {
        let heap = rt.alloc();
        let mut mesh = blank_mesh(heap, PLACES)?;
        let mut tables = case_tables(heap, self.corners)?;
        println!(rt; "{}", self.name)?;
        for text in self.texts {
            let answer = number(obey(book, &mut mesh, &mut tables, Call::Face(text)));
            println!(rt; "  face {answer}")?;
        }
        let answer = obey(
            book,
            &mut mesh,
            &mut tables,
            Call::Export(self.options, None),
        );
        println!(rt; "  export {}", number(answer))?;
        if let Ok(Reply::Exported(written, skipped)) = answer {
            println!(rt; "  written {written} skipped {skipped}")?;
            print_mesh(rt, &mesh)?;
        }
        Ok(())
    }
}

// A token read on its own, with three elements of each kind.
fn reading_case(rt: &HostRuntime, token: &str) -> anyhow::Result<()> {
    let counts = Counts {
        positions: 3,
        textures: 3,
        normals: 3,
    };
    match VertexIndices::parse(token.as_bytes(), counts) {
        Some(VertexIndices { v, vt, vn }) => println!(rt; "{token} reads as {v} {vt} {vn}")?,
        None => println!(rt; "{token} does not read")?,
    }
    Ok(())
}

fn reading_cases(rt: &HostRuntime) -> anyhow::Result<()> {
    let tokens = [
        "1/2/3",
        "1//3",
        "-1",
        "-4",
        "-5",
        "0",
        "1/2/3//",
        "1/2/3/4",
        "+2",
        "+",
        "9223372036854775807",
        "9223372036854775808",
    ];
    for token in tokens {
        reading_case(rt, token)?;
    }
    Ok(())
}

fn unfolding_cases(rt: &HostRuntime) -> anyhow::Result<()> {
    let four = Held {
        positions: 4,
        ..THREE
    };
    Case::new("reference 0", &[b"0"], PLAIN).run(rt, THREE)?;
    Case::new("a fan", &[b"1 2 3 4"], TRIANGLES).run(rt, four)?;
    Case::new("a point", &[b"2"], TRIANGLES).run(rt, THREE)?;
    Case::new("a line", &[b"1 2"], TRIANGLES).run(rt, THREE)?;
    Case::new("no corners, triangulated", &[b""], TRIANGLES).run(rt, THREE)?;
    Case::new("no corners", &[b""], PLAIN).run(rt, THREE)
}

fn numbering_cases(rt: &HostRuntime) -> anyhow::Result<()> {
    let two_textures = Held {
        textures: 2,
        ..THREE
    };
    let two_normals = Held {
        normals: 2,
        ..THREE
    };
    let one_colour = Held {
        colours: 1,
        ..THREE
    };
    Case::new(
        "normals apart",
        &[b"1//1 2//1 3//1", b"1//2 3//2 2//2"],
        SINGLE,
    )
    .run(rt, THREE)?;
    Case::new("fillers", &[b"1 2 3", b"1/1 2/2 3/3"], SINGLE).run(rt, THREE)?;
    Case::new("carried over", &[b"1 2/2 3"], PLAIN).run(rt, two_textures)?;
    Case {
        corners: 2,
        ..Case::new("a third corner", &[b"1 2 3"], SINGLE)
    }
    .run(rt, THREE)?;
    Case {
        corners: 2,
        ..Case::new("the first corner again", &[b"1 2 1"], SINGLE)
    }
    .run(rt, THREE)?;
    Case::new("a normal far out", &[b"1//6148914691236517207"], PLAIN).run(rt, two_normals)?;
    Case::new("one colour", &[b"1 2 3"], PLAIN).run(rt, one_colour)
}

// Points that agree bit for bit are merged; 0 and -0 do not agree.
fn merging_case(rt: &HostRuntime) -> anyhow::Result<()> {
    let mut book = blank_book(rt.alloc(), PLACES)?;
    book.position(0.0, 0.0, 0.0)?;
    book.position(-0.0, 0.0, 0.0)?;
    book.position(0.0, 0.0, 0.0)?;
    Case::new("0 and -0", &[b"1 2 3"], MERGED).export(rt, &mut book)
}

// Positions that merge while the colours beside them do not.
fn colours_case(rt: &HostRuntime) -> anyhow::Result<()> {
    let mut book = blank_book(rt.alloc(), PLACES)?;
    book.position(5.0, 0.0, 0.0)?;
    book.position(6.0, 0.0, 0.0)?;
    book.position(5.0, 0.0, 0.0)?;
    book.colour(1.0, 0.0, 0.0)?;
    book.colour(0.0, 1.0, 0.0)?;
    book.colour(0.0, 0.0, 1.0)?;
    Case::new("colours apart", &[b"1 2 3"], MERGED).export(rt, &mut book)
}

fn main(rt: HostRuntime) -> anyhow::Result<()> {
    reading_cases(&rt)?;
    unfolding_cases(&rt)?;
    numbering_cases(&rt)?;
    merging_case(&rt)?;
    colours_case(&rt)
}
