ghost use Rattle.std.specs.Prelude.{◌≡◌, ◌<◌, ◌≤◌, true, ◌&&◌, ◌||◌, is_ok, nat_lt};
ghost use Rattle.elements.specs.Bits.{point_bits, pair_bits};
ghost use Rattle.elements.specs.Checks.{refusal, first};
ghost use Rattle.elements.specs.Rows.{items, room};
ghost use Rattle.mesh.specs.Surface.{Capacities};
ghost use Rattle.mesh.specs.Lists.{surface, rooms, Blank};
ghost use Rattle.mesh.specs.Merging.{merged, merge_checks, bit_checks};
ghost use Rattle.mesh.specs.Merges.{most, Fresh, Emptied, Steady, AllSteady, RowsMerged, Mergeable, TablesFor};

use crate::lists::Lists;
use crate::merge::{merge_identical_points, shorten};
use elements::error::LoadError;
use elements::point::{Pair, Point};
use elements::row::Row;
use tables::table::CornerTable;

// Merges each list of elements and its numbers, colours first, which get numbers of their own for that.
#[tactic(auto, using(elements::proofs::ZeroFacts::zero_is))]
pub(crate) fn merge_points<Qt: CornerTable<Point>, Rt: CornerTable<Pair>>(
    lists: &mut Lists,
    points: &mut Qt,
    pairs: &mut Rt,
) -> Result<(), LoadError>
    ensures merged { is_ok result ≡ true → Mergeable (surface lists.old) → surface lists.new ≡ merged (surface lists.old) }
    ensures refused { (n : Capacities) → TablesFor n (Qt.CornerTable.capacity points.old) (Rt.CornerTable.capacity pairs.old) → refusal result ≡ first (merge_checks (rooms lists.old) n (surface lists.old)) }
    ensures rooms { rooms lists.new ≡ rooms lists.old }
    ensures blank { Blank lists.old → Blank lists.new }
    ensures cleared { lists.new.remap.count ≡ 0 }
    ensures points { Emptied Qt.CornerTable points.old points.new }
    ensures pairs { Emptied Rt.CornerTable pairs.old pairs.new }
{
    points.empty();
    pairs.empty();
    shorten(&mut lists.remap, 0, 0);
    if lacks_cells(lists) {
        return Err(LoadError::MeshFull);
    }
    number_colours(
        &lists.vertex_color,
        &lists.indices,
        &mut lists.vertex_color_indices,
    );
    merge_lists(lists, points, pairs, Point::ZERO, Pair::ZERO)
}

// The four lists, one after the other.
// kept: four calls, since their order is that of the refusals; the blanks are parameters, since a clause can't name `Point::ZERO`.
fn merge_lists<Qt: CornerTable<Point>, Rt: CornerTable<Pair>>(
    lists: &mut Lists,
    points: &mut Qt,
    pairs: &mut Rt,
    point: Point,
    pair: Pair,
) -> Result<(), LoadError>
    requires points { Fresh Qt.CornerTable points.old lists.old.remap (most lists.old) }
    requires pairs { Fresh Rt.CornerTable pairs.old lists.old.remap (most lists.old) }
    ensures colours { is_ok result ≡ true → RowsMerged point_bits lists.old.vertex_color lists.new.vertex_color lists.old.vertex_color_indices lists.new.vertex_color_indices }
    ensures positions { is_ok result ≡ true → RowsMerged point_bits lists.old.positions lists.new.positions lists.old.indices lists.new.indices }
    ensures normals { is_ok result ≡ true → RowsMerged point_bits lists.old.normals lists.new.normals lists.old.normal_indices lists.new.normal_indices }
    ensures textures { is_ok result ≡ true → RowsMerged pair_bits lists.old.texcoords lists.new.texcoords lists.old.texcoord_indices lists.new.texcoord_indices }
    ensures refused { refusal result ≡ first (bit_checks (Qt.CornerTable.capacity points.old) (Rt.CornerTable.capacity pairs.old) (surface lists.old)) }
    ensures steady { AllSteady point pair lists.old lists.new }
    ensures cleared { lists.new.remap.count ≡ 0 }
    ensures points { Emptied Qt.CornerTable points.old points.new }
    ensures pairs { Emptied Rt.CornerTable pairs.old pairs.new }
{
    merge_identical_points(
        &mut lists.vertex_color,
        &mut lists.vertex_color_indices,
        &mut lists.remap,
        points,
        point,
    )?;
    merge_identical_points(
        &mut lists.positions,
        &mut lists.indices,
        &mut lists.remap,
        points,
        point,
    )?;
    merge_identical_points(
        &mut lists.normals,
        &mut lists.normal_indices,
        &mut lists.remap,
        points,
        point,
    )?;
    merge_identical_points(
        &mut lists.texcoords,
        &mut lists.texcoord_indices,
        &mut lists.remap,
        pairs,
        pair,
    )
}

// Whether the remap list is too short for a list that is to be merged, or the colours' numbers would not fit.
fn lacks_cells(lists: &Lists) -> bool
    ensures { result ≡ (nat_lt (room lists.now.remap) (most lists.now) || nat_lt 0 lists.now.vertex_color.count && nat_lt (room lists.now.vertex_color_indices) lists.now.indices.count) }
{
    lists.remap.room() < longest_list(lists)
        || lists.vertex_color.count > 0 && lists.vertex_color_indices.room() < lists.indices.count
}

// How many elements the longest of the lists that are merged has.
fn longest_list(lists: &Lists) -> usize
    ensures { result ≡ most lists.now }
{
    let points = lists.positions.count.max(lists.vertex_color.count);
    points.max(lists.normals.count).max(lists.texcoords.count)
}

// Where there are colours, their numbers are those of the positions, until they are merged.
fn number_colours(colours: &Row<Point>, indices: &Row<u32>, colour_indices: &mut Row<u32>)
    requires { 0 < colours.now.count → indices.now.count ≤ room colour_indices.old }
    ensures some { 0 < colours.now.count → items colour_indices.new ≡ items indices.now }
    ensures none { colours.now.count ≤ 0 → items colour_indices.new ≡ items colour_indices.old }
    ensures steady { Steady 0 colour_indices.old colour_indices.new }
{
    if colours.count == 0 {
        return;
    }
    shorten(colour_indices, 0, 0);
    // kept: number by number, since a row counts as it grows
    for number in indices.as_slice() {
        colour_indices.push(*number).unwrap();
    }
}
