ghost use Rattle.std.specs.Prelude.{◌≡◌, ◌+◌, ◌≤◌, List, [], ◌∷◌, ◌++◌, map, length, IfOk, Some, filter};
ghost use Rattle.elements.specs.declared.corner.VertexIndices.{VertexIndices};
ghost use Rattle.elements.specs.Cells.{most};
ghost use Rattle.elements.specs.Contents.{faces_of};
ghost use Rattle.elements.specs.Rows.{items};
ghost use Rattle.elements.specs.Tiles.{part};
ghost use Rattle.mesh.specs.Unfold.{wanted, triangles, corner, arity, events};
ghost use Rattle.mesh.specs.Ways.{Unfolds};
ghost use Rattle.mesh.specs.Writes.{Writes};

use crate::lists::Lists;
use crate::numbering::Numbering;
use elements::attributes::Attributes;
use elements::corner::{Face, VertexIndices};
use elements::error::LoadError;
use elements::options::LoadOptions;
use elements::waiting::Waiting;

// An export under way: what it reads, and the lists and tables that it writes into.
#[derive(Drop)]
pub(crate) struct Writer<'a, N: Numbering> {
    pub(crate) options: LoadOptions,
    pub(crate) attributes: &'a Attributes,
    pub(crate) lists: &'a mut Lists,
    pub(crate) tables: &'a mut N,
}

impl<N: Numbering> Writer<'_, N> {
    // Every waiting face that is not skipped, in order; answers how many these are.
    pub(crate) fn write_faces(&mut self, waiting: &Waiting) -> Result<usize, LoadError>
        ensures writes { Writes N.Numbering (events self.old.options (faces_of waiting.now)) self.old self.new result }
        ensures count { IfOk result (λ n. n ≡ length (filter (wanted self.old.options) (faces_of waiting.now))) }
    {
        let mut written = 0;
        for face in waiting.faces.as_slice() {
            let corners = corners_of(waiting, *face);
            let Some(way) = unfolding_of(corners.len(), self.options) else {
                continue;
            };
            self.write_face(way, corners)?;
            written += 1;
        }
        Ok(written)
    }

    // One face, in the way in which it unfolds.
    fn write_face(&mut self, way: Unfolding, corners: &[VertexIndices]) -> Result<(), LoadError>
        requires way { Unfolds self.old.options corners.now (Some way) }
        requires short { length corners.now ≤ most }
        ensures { Writes N.Numbering (events self.old.options (corners.now ∷ [])) self.old self.new result }
    {
        match way {
            Unfolding::Empty => Err(LoadError::InvalidPolygon),
            Unfolding::Point => self.write_corners(&[corners[0]; 3]),
            Unfolding::Line => self.write_corners(&[corners[0], corners[1], corners[1]]),
            Unfolding::Fan => self.write_fan(corners),
            Unfolding::Plain => self.write_plain(corners),
        }
    }

    // The triangles around the first corner.
    fn write_fan(&mut self, corners: &[VertexIndices]) -> Result<(), LoadError>
        requires { 3 ≤ length corners.now }
        ensures { Writes N.Numbering (map corner (triangles corners.now)) self.old self.new result }
    {
        for side in corners[1..].windows(2) {
            self.write_corners(&[corners[0], side[0], side[1]])?;
        }
        Ok(())
    }

    // The corners as they stand, and then how many they are.
    fn write_plain(&mut self, corners: &[VertexIndices]) -> Result<(), LoadError>
        requires { length corners.now ≤ most }
        ensures { Writes N.Numbering (map corner corners.now ++ arity (length corners.now) ∷ []) self.old self.new result }
    {
        self.write_corners(corners)?;
        let arity = corners.len() as u32;
        self.lists
            .face_arities
            .push(arity)
            .or(Err(LoadError::MeshFull))
    }

    // Corners one after the other.
    fn write_corners(&mut self, corners: &[VertexIndices]) -> Result<(), LoadError>
        ensures { Writes N.Numbering (map corner corners.now) self.old self.new result }
    {
        for vert in corners {
            self.write_corner(*vert)?;
        }
        Ok(())
    }

    // One corner.
    fn write_corner(&mut self, vert: VertexIndices) -> Result<(), LoadError>
        ensures { Writes N.Numbering (corner vert ∷ []) self.old self.new result }
    {
        self.tables
            .add_corner(self.options, self.lists, self.attributes, vert)
    }
}

// How a face unfolds that is not skipped.
// kept: a way that is chosen and then gone, since the match that chooses it is a form that the project asks for
#[derive(Clone, Copy, PartialEq, Eq, Debug)]
enum Unfolding {
    Empty,
    Point,
    Line,
    Fan,
    Plain,
}

// How a face of so many corners unfolds under these options; none if it is skipped.
fn unfolding_of(count: usize, options: LoadOptions) -> Option<Unfolding>
    ensures { (face : List VertexIndices) → length face ≡ count → Unfolds options face result }
{
    match (count, options.triangulate) {
        (1, _) if options.ignore_points => None,
        (2, _) if options.ignore_lines => None,
        (_, false) => Some(Unfolding::Plain),
        (0, true) => Some(Unfolding::Empty),
        (1, true) => Some(Unfolding::Point),
        (2, true) => Some(Unfolding::Line),
        (_, true) => Some(Unfolding::Fan),
    }
}

// The corners of a waiting face.
fn corners_of(waiting: &Waiting, face: Face) -> &[VertexIndices]
    requires { face.start + face.count ≤ waiting.now.corners.count }
    ensures corners { result.now ≡ part (items waiting.now.corners) face }
    ensures short { length result.now ≤ most }
{
    &waiting.corners.as_slice()[face.start..][..face.count]
}
