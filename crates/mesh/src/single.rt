ghost use Rattle.std.specs.Prelude.{◌≡◌, ◌<◌, ◌≤◌, true, false, Some, None, MatchResult, is_ok};
ghost use Rattle.elements.specs.Checks.{first};
ghost use Rattle.elements.specs.Contents.{sources};
ghost use Rattle.elements.specs.Rows.{items};
ghost use Rattle.mesh.specs.Surface.{Capacities};
ghost use Rattle.mesh.specs.Lists.{surface, rooms};
ghost use Rattle.mesh.specs.Streams.{lost, Keeps};
ghost use Rattle.mesh.specs.Steps.{AddsSingle};
ghost use Rattle.mesh.specs.Single.{At, Becomes, padded, attached, followed, reading_checks, Reads, Same, Settles, Undisturbed, numbered_again, widened};

use crate::lists::Lists;
use elements::attributes::Attributes;
use elements::corner::{MISSING_INDEX, VertexIndices};
use elements::error::LoadError;
use elements::list::Full;
use elements::point::{Pair, Point};
use elements::row::Row;
use tables::table::CornerTable;

// What a corner brings to a mesh.
#[derive(Clone, Copy)]
pub(crate) struct Vertex {
    position: Point,
    texture: Option<Pair>,
    normal: Option<Point>,
    colour: Option<Point>,
}

// One corner more in a mesh where one number stands for a corner's three references.
pub(crate) fn add_vertex<T: CornerTable<VertexIndices>>(
    lists: &mut Lists,
    table: &mut T,
    attributes: &Attributes,
    vert: VertexIndices,
) -> Result<(), LoadError>
    ensures table { Keeps T.CornerTable table.old table.new }
    ensures lists { Undisturbed lists.old lists.new }
    ensures same { Same lists.old lists.new }
    ensures adds { T.CornerTable.sound table.old → (n : Capacities) → n.corners ≡ T.CornerTable.capacity table.old →
        AddsSingle (sources attributes.now) (rooms lists.old) n vert
        (surface lists.old) (T.CornerTable.keys table.old)
        (surface lists.new) (T.CornerTable.keys table.new) result }
{
    let vertex = gather(attributes, vert)?;
    let number = table.enter(vert).ok_or(LoadError::TableFull)?;
    settle(lists, number, vertex).map_err(|_| LoadError::MeshFull)
}

// What a corner names, refused where it names an element that is not there.
fn gather(attributes: &Attributes, vert: VertexIndices) -> Result<Vertex, LoadError>
    ensures { MatchResult result
        (λ v. (first (reading_checks attributes.now vert) ≡ None) × Reads attributes.now vert v)
        (λ e. first (reading_checks attributes.now vert) ≡ Some e) }
{
    let position = attributes
        .positions
        .get(vert.v)
        .ok_or(LoadError::FaceVertexOutOfBounds)?;
    let texture = asked(
        &attributes.textures,
        vert.vt,
        LoadError::FaceTexCoordOutOfBounds,
    )?;
    let normal = asked(
        &attributes.normals,
        vert.vn,
        LoadError::FaceNormalOutOfBounds,
    )?;
    // a colour stands beside its position, whose place is never the missing one
    let colour = asked(&attributes.colours, vert.v, LoadError::FaceColorOutOfBounds)?;
    Ok(Vertex {
        position,
        texture,
        normal,
        colour,
    })
}

// The element that a reference asks for, or the refusal where it is not there: it asks for none where it is missing or there are
// none at all.
pub(crate) fn asked<T: Copy>(
    row: &Row<T>,
    at: usize,
    refusal: LoadError,
) -> Result<Option<T>, LoadError>
    ensures { MatchResult result
        (λ o. (lost row.now at ≡ false) × At row.now at o)
        (λ e. (lost row.now at ≡ true) × (e ≡ refusal)) }
{
    match row.get(at) {
        None if row.len() > 0 && at != MISSING_INDEX => Err(refusal),
        item => Ok(item),
    }
}

// The number of a corner, and what the corner brings where the number is new.
fn settle(lists: &mut Lists, number: u32, vertex: Vertex) -> Result<(), Full>
    ensures old { number < lists.old.positions.count → Settles lists.old lists.new (numbered_again (surface lists.old) number) (is_ok result) }
    ensures new { lists.old.positions.count ≤ number → Settles lists.old lists.new (numbered_again (widened (surface lists.old) vertex) number) (is_ok result) }
{
    if (number as usize) < lists.positions.len() {
        // a number that the mesh has already
        return lists.indices.push(number);
    }
    widen(lists, vertex)?;
    lists.indices.push(number)
}

// What a new number brings, beside the numbers before it.
#[tactic(auto, using(elements::proofs::ZeroFacts::zero_is))]
fn widen(lists: &mut Lists, vertex: Vertex) -> Result<(), Full>
    ensures { Settles lists.old lists.new (widened (surface lists.old) vertex) (is_ok result) }
{
    let number = lists.positions.len();
    lists.positions.push(vertex.position)?;
    attach(&mut lists.texcoords, number, vertex.texture, Pair::ZERO)?;
    attach(&mut lists.normals, number, vertex.normal, Point::ZERO)?;
    follow(&mut lists.vertex_color, vertex.colour)
}

// What the number `number` brings to a list, or the filler that holds its place there once the list is in use.
fn attach<T: Copy>(row: &mut Row<T>, number: usize, item: Option<T>, filler: T) -> Result<(), Full>
    ensures { Becomes row.old row.new (attached number filler (items row.old) item) (is_ok result) }
{
    match item {
        Some(item) => {
            fill_up(row, number, filler)?;
            row.push(item)
        }
        None if row.len() > 0 => row.push(filler),
        None => Ok(()),
    }
}

// Fillers until there are `count` elements.
fn fill_up<T: Copy>(row: &mut Row<T>, count: usize, filler: T) -> Result<(), Full>
    ensures { Becomes row.old row.new (padded count filler (items row.old)) (is_ok result) }
{
    for _ in row.len()..count {
        row.push(filler)?;
    }
    Ok(())
}

// One element more, if there is one.
fn follow<T: Copy>(row: &mut Row<T>, item: Option<T>) -> Result<(), Full>
    ensures { Becomes row.old row.new (followed (items row.old) item) (is_ok result) }
{
    if let Some(item) = item {
        row.push(item)?;
    }
    Ok(())
}
