#![tactic(auto, using(crate::proofs::StoreFacts::map_added))]

ghost use Rattle.std.specs.Prelude.{◌≡◌, [], ◌∷◌, MatchResult, nat_le, is_ok};
ghost use Rattle.elements.specs.Bits.{point_bits, pair_bits, triple_bits, double_bits};
ghost use Rattle.elements.specs.Cells.{added};
ghost use Rattle.elements.specs.Checks.{refusal, first};
ghost use Rattle.elements.specs.Contents.{nothing};
ghost use Rattle.elements.specs.Rows.{held, room, Pushed};
ghost use Rattle.book.specs.Held.{rooms as rooms_of, contained, Stores, with_positions, with_colours, with_textures, with_normals};
ghost use Rattle.book.specs.Requests.{add_position, add_colour, add_texture, add_normal};
ghost use Rattle.book.specs.Rules.{Follows, told};

use crate::book::Book;
use crate::cells::Cells;
use elements::attributes::Attributes;
use elements::error::LoadError;
use elements::point::{Pair, Point};
use elements::row::Row;
use elements::waiting::Waiting;

impl Book {
    // A blank book over these cells.
    pub fn new(cells: Cells) -> Book
        ensures blank { contained result ≡ nothing }
        ensures positions { result.attributes.positions.cells ≡ cells.positions }
        ensures colours { result.attributes.colours.cells ≡ cells.colours }
        ensures textures { result.attributes.textures.cells ≡ cells.textures }
        ensures normals { result.attributes.normals.cells ≡ cells.normals }
        ensures corners { result.waiting.corners.cells ≡ cells.corners }
        ensures faces { result.waiting.faces.cells ≡ cells.faces }
    {
        Book {
            attributes: Attributes {
                positions: Row::new(cells.positions),
                colours: Row::new(cells.colours),
                textures: Row::new(cells.textures),
                normals: Row::new(cells.normals),
            },
            waiting: Waiting {
                corners: Row::new(cells.corners),
                faces: Row::new(cells.faces),
            },
        }
    }

    // One position more.
    // kept: a method for each kind of element, since each has its own list and its own request in the contract
    pub fn position(&mut self, x: f32, y: f32, z: f32) -> Result<(), LoadError>
        ensures rooms { rooms_of self.new ≡ rooms_of self.old }
        ensures does { Follows (rooms_of self.old) (contained self.old) (add_position x y z) (told result) (contained self.new) }
        ensures cells { Stores point_bits result self.old.attributes.positions self.new.attributes.positions (triple_bits x y z) }
        ensures others { self.new ≡ with_positions self.old self.new.attributes.positions }
    {
        push_or(
            &mut self.attributes.positions,
            Point::new(x, y, z)?,
            LoadError::BookFull,
        )
    }

    // One colour more: it belongs to the position of the same number.
    pub fn colour(&mut self, x: f32, y: f32, z: f32) -> Result<(), LoadError>
        ensures rooms { rooms_of self.new ≡ rooms_of self.old }
        ensures does { Follows (rooms_of self.old) (contained self.old) (add_colour x y z) (told result) (contained self.new) }
        ensures cells { Stores point_bits result self.old.attributes.colours self.new.attributes.colours (triple_bits x y z) }
        ensures others { self.new ≡ with_colours self.old self.new.attributes.colours }
    {
        push_or(
            &mut self.attributes.colours,
            Point::new(x, y, z)?,
            LoadError::BookFull,
        )
    }

    // One texture more.
    pub fn texture(&mut self, u: f32, v: f32) -> Result<(), LoadError>
        ensures rooms { rooms_of self.new ≡ rooms_of self.old }
        ensures does { Follows (rooms_of self.old) (contained self.old) (add_texture u v) (told result) (contained self.new) }
        ensures cells { Stores pair_bits result self.old.attributes.textures self.new.attributes.textures (double_bits u v) }
        ensures others { self.new ≡ with_textures self.old self.new.attributes.textures }
    {
        push_or(
            &mut self.attributes.textures,
            Pair::new(u, v)?,
            LoadError::BookFull,
        )
    }

    // One normal more.
    pub fn normal(&mut self, x: f32, y: f32, z: f32) -> Result<(), LoadError>
        ensures rooms { rooms_of self.new ≡ rooms_of self.old }
        ensures does { Follows (rooms_of self.old) (contained self.old) (add_normal x y z) (told result) (contained self.new) }
        ensures cells { Stores point_bits result self.old.attributes.normals self.new.attributes.normals (triple_bits x y z) }
        ensures others { self.new ≡ with_normals self.old self.new.attributes.normals }
    {
        push_or(
            &mut self.attributes.normals,
            Point::new(x, y, z)?,
            LoadError::BookFull,
        )
    }
}

// One element more in a list, or this refusal if no cell is left for it.
pub(crate) fn push_or<T: Copy>(row: &mut Row<T>, item: T, error: LoadError) -> Result<(), LoadError>
    ensures refused { refusal result ≡ first ((nat_le (room row.old) row.old.count, error) ∷ []) }
    ensures cells { held row.new ≡ added (is_ok result) (held row.old) row.old.count item }
    ensures stored { MatchResult result (λ _. Pushed row.old row.new item) (λ _. row.new ≡ row.old) }
    ensures room { room row.new ≡ room row.old }
{
    row.push(item).map_err(|_| error)
}
