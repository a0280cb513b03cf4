ghost use Rattle.std.specs.Prelude.{◌≡◌, ◌<◌, ◌≤◌, length, take, drop, MatchOption};
ghost use Rattle.mesh.specs.Lists.{rooms as mesh_rooms};
ghost use Rattle.mesh.specs.Surface.{Rooms, Capacities};
ghost use Rattle.mesh.specs.Writing.{Stock};
ghost use Rattle.book.specs.Asked.{request};
ghost use Rattle.book.specs.Held.{rooms as rooms_of, contained, left};
ghost use Rattle.book.specs.History.{Past, Reaches, History};
ghost use Rattle.records.specs.Layout.{size as bytes_of, Stands};
ghost use Rattle.records.specs.Playing.{heard, Asks, line_of, Played};

use crate::layout::{kind, options, read};
use crate::line::{Line, Size};
use crate::record::Record;
use book::book::Book;
use book::calls::{Answer, Call, Reply};
use book::obey::obey;
use elements::error::LoadError;
use mesh::mesh::Mesh;
use mesh::numbering::Numbering;

// Plays a tape on a book, as far as it is readable and a line is left for each record, and says how many lines it wrote.
// Exports write into this mesh, by these tables.
// kept: lines that are handed in and a count of those written, since the library asks for no memory
// kept: book, mesh and tables apart, since the caller owns and lends each, and mesh and tables may be others at the next call
#[tactic(auto, using(book::proofs::HistoryFacts::history))]
pub fn play<N: Numbering>(
    book: &mut Book,
    mesh: &mut Mesh,
    tables: &mut N,
    tape: &[u8],
    lines: &mut [Line],
) -> usize
    ensures history { History }
    ensures rooms { rooms_of book.new ≡ rooms_of book.old }
    ensures mesh_rooms { mesh_rooms mesh.new.lists ≡ mesh_rooms mesh.old.lists }
    ensures capacities { (N.Numbering.stock tables.new).capacities ≡ (N.Numbering.stock tables.old).capacities }
    ensures sound { N.Numbering.sound tables.old → N.Numbering.sound tables.new }
    ensures count { result ≤ length lines.old }
    ensures kept { drop result lines.new ≡ drop result lines.old }
    ensures played { (p : Past) → Reaches (rooms_of book.old) p (contained book.old) →
        Played (rooms_of book.old) (mesh_rooms mesh.old.lists) (N.Numbering.stock tables.old).capacities p (left mesh.old (N.Numbering.stock tables.old))
        tape.now (take result lines.new) (length lines.old) (contained book.new) (left mesh.new (N.Numbering.stock tables.new)) }
{
    let mut rest = tape;
    for (count, told) in lines.iter_mut().enumerate() {
        if rest.is_empty() {
            return count;
        }
        let kind = kind(rest);
        let Some((call, after)) = next(rest) else {
            *told = line(kind, Err(LoadError::BadRecord), mesh);
            return count + 1;
        };
        let answer = obey(book, mesh, tables, call);
        *told = line(kind, answer, mesh);
        rest = after;
    }
    lines.len()
}

// The call that begins here, and the bytes after its record.
fn next<'a>(tape: &'a [u8]) -> Option<(Call<'a>, &'a [u8])>
    ensures { MatchOption result ((x : Record) → Stands tape.now x → ⊥)
        (λ n. (x : Record) × Stands tape.now x × ((ms : Rooms) (ts : Capacities) → request ms ts n.0 ≡ heard ms ts tape.now x) × (n.1.now ≡ drop (bytes_of x) tape.now)) }
{
    let record = read(tape)?;
    Some((call_of(record, tape), &tape[record.size()..]))
}

// The call that a record asks for, where it begins the tape.
fn call_of<'a>(found: Record, tape: &'a [u8]) -> Call<'a>
    requires { bytes_of found ≤ length tape.now }
    ensures { (ms : Rooms) (ts : Capacities) → request ms ts result ≡ heard ms ts tape.now found }
{
    match found {
        Record::Position(x, y, z) => Call::Position(x, y, z),
        Record::Colour(x, y, z) => Call::Colour(x, y, z),
        Record::Texture(u, v) => Call::Texture(u, v),
        Record::Normal(x, y, z) => Call::Normal(x, y, z),
        Record::Face(bytes) => Call::Face(&tape[4..4 + usize::from(bytes)]),
        Record::Export(flags) => Call::Export(options(flags), None),
    }
}

// What is told of a record.
fn line(kind: u8, answer: Answer, mesh: &Mesh) -> Line
    ensures { (t : Stock) → result ≡ line_of kind answer (left mesh.now t) }
{
    let size = match answer {
        Ok(Reply::Exported(..)) => {
            let lists = mesh.lists();
            Some(Size {
                indices: lists.indices.len() as u32,
                positions: lists.positions.len() as u32,
            })
        }
        _ => None,
    };
    Line { kind, size, answer }
}
