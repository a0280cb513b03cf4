ghost use Rattle.std.specs.Prelude.{◌≡◌, ℕ, List, Some, None, MatchResult, is_ok};
ghost use Rattle.elements.specs.declared.corner.VertexIndices.{VertexIndices as Vertex};
ghost use Rattle.elements.specs.Checks.{first};
ghost use Rattle.elements.specs.Contents.{Sources, sources};
ghost use Rattle.mesh.specs.Surface.{Capacities};
ghost use Rattle.mesh.specs.Lists.{surface, rooms};
ghost use Rattle.mesh.specs.Numbering.{one, multi as multi_mesh, with_arities};
ghost use Rattle.mesh.specs.Single.{Kept, Undisturbed};
ghost use Rattle.mesh.specs.Steps.{AddsMulti};
ghost use Rattle.mesh.specs.Streams.{ByNumber, Keeps, Enters, Takes};
ghost use Rattle.mesh.specs.MultiSteps.{looking_checks, Looks, Brings, Numbered, Ready, keys_in, Tints, Drew};

use crate::lists::Lists;
use crate::single::asked;
use crate::stream::{Named, enter, look_up, place, write};
use elements::attributes::Attributes;
use elements::corner::VertexIndices;
use elements::error::LoadError;
use elements::list::Full;
use elements::point::{Pair, Point};
use elements::row::Row;
use tables::key::Reference;
use tables::table::CornerTable;

// What a corner brings to a mesh, where each kind of element is known by `R`.
#[derive(Drop)]
pub(crate) struct Corner<R> {
    position: R,
    point: Point,
    colour: Option<Point>,
    texture: Named<R, Pair>,
    normal: Named<R, Point>,
}

// Adds one corner to a mesh that numbers positions, textures and normals apart. A corner that repeats a number asks its table
// nothing, so that no table holds more keys than it has room for is known before, and told after.
// kept: three tables as three parameters; the struct that holds them has three more, each of a type of its own
pub(crate) fn add_vertex_multi_index<
    Pt: CornerTable<Reference>,
    Tt: CornerTable<Reference>,
    Nt: CornerTable<Reference>,
>(
    lists: &mut Lists,
    positions: &mut Pt,
    textures: &mut Tt,
    normals: &mut Nt,
    attributes: &Attributes,
    vert: VertexIndices,
) -> Result<(), LoadError>
    ensures lists { Undisturbed lists.old lists.new }
    ensures positions { Keeps Pt.CornerTable positions.old positions.new }
    ensures textures { Keeps Tt.CornerTable textures.old textures.new }
    ensures normals { Keeps Nt.CornerTable normals.old normals.new }
    ensures adds { (n : Capacities) → Ready Pt.CornerTable Tt.CornerTable Nt.CornerTable n positions.old textures.old normals.old →
        (ks : List (List ℕ)) →
        AddsMulti (sources attributes.now) (rooms lists.old) n vert
        (surface lists.old) (keys_in Pt.CornerTable Tt.CornerTable Nt.CornerTable ks positions.old textures.old normals.old)
        (surface lists.new) (keys_in Pt.CornerTable Tt.CornerTable Nt.CornerTable ks positions.new textures.new normals.new) result }
{
    let found = look_up_corner(lists, attributes, vert)?;
    // every table before any list: a full table is the refusal even where a list is full too
    let corner = enter_corner(positions, textures, normals, found)?;
    write_corner(lists, corner).map_err(|_| LoadError::MeshFull)
}

// What a corner names, or why its references are refused.
fn look_up_corner(
    lists: &Lists,
    attributes: &Attributes,
    vert: VertexIndices,
) -> Result<Corner<Reference>, LoadError>
    ensures { MatchResult result
        (λ k. (first (looking_checks attributes.now vert) ≡ None) × Looks attributes.now vert lists.now k)
        (λ e. first (looking_checks attributes.now vert) ≡ Some e) }
{
    let point = attributes
        .positions
        .get(vert.v)
        .ok_or(LoadError::FaceVertexOutOfBounds)?;
    // a colour stands beside its position, whose place is never the missing one
    let colour = asked(&attributes.colours, vert.v, LoadError::FaceColorOutOfBounds)?;
    let texture = look_up(&attributes.textures, &lists.texcoord_indices, vert.vt).ok_or(
        LoadError::FaceTexCoordOutOfBounds,
    )?;
    let normal = look_up(&attributes.normals, &lists.normal_indices, vert.vn).ok_or(
        LoadError::FaceNormalOutOfBounds,
    )?;
    Ok(Corner {
        position: Reference { at: vert.v },
        point,
        colour,
        texture,
        normal,
    })
}

// The numbers of what a corner brings, which is entered unless its tables have it, or the refusal of a new reference by a full table.
fn enter_corner<Pt: CornerTable<Reference>, Tt: CornerTable<Reference>, Nt: CornerTable<Reference>>(
    positions: &mut Pt,
    textures: &mut Tt,
    normals: &mut Nt,
    corner: Corner<Reference>,
) -> Result<Corner<u32>, LoadError>
    ensures positions { Keeps Pt.CornerTable positions.old positions.new }
    ensures textures { Keeps Tt.CornerTable textures.old textures.new }
    ensures normals { Keeps Nt.CornerTable normals.old normals.new }
    ensures numbers { Numbered
        (Enters Pt.CornerTable positions.old positions.new (one corner.position.at))
        (Takes Tt.CornerTable textures.old textures.new corner.texture)
        (Takes Nt.CornerTable normals.old normals.new corner.normal) corner result }
{
    let position = positions
        .enter(corner.position)
        .ok_or(LoadError::TableFull)?;
    let texture = enter(textures, corner.texture).ok_or(LoadError::TableFull)?;
    let normal = enter(normals, corner.normal).ok_or(LoadError::TableFull)?;
    Ok(Corner {
        position,
        point: corner.point,
        colour: corner.colour,
        texture,
        normal,
    })
}

// Writes what a corner brings, if every list has a cell for it.
fn write_corner(lists: &mut Lists, corner: Corner<u32>) -> Result<(), Full>
    ensures lists { Undisturbed lists.old lists.new }
    ensures drew { (s : Sources) (ns : List ℕ) (cs : List Vertex) (c : Vertex) → surface lists.old ≡ with_arities ns (multi_mesh s cs) → Brings s cs c ByNumber corner →
        Drew s cs c ns (rooms lists.old) (surface lists.new) (is_ok result) }
{
    write(
        &mut lists.positions,
        &mut lists.indices,
        Named::Element(corner.position, corner.point),
    )?;
    place_colour(&mut lists.vertex_color, corner.position, corner.colour)?;
    write(
        &mut lists.texcoords,
        &mut lists.texcoord_indices,
        corner.texture,
    )?;
    write(&mut lists.normals, &mut lists.normal_indices, corner.normal)
}

// Writes the colour beside the position of a number, unless the list has it.
fn place_colour(colours: &mut Row<Point>, number: u32, colour: Option<Point>) -> Result<(), Full>
    ensures kept { Kept colours.old colours.new }
    ensures tinted { Tints colours.old number colour colours.new (is_ok result) }
{
    match colour {
        None => Ok(()),
        Some(colour) => place(colours, number, colour),
    }
}
