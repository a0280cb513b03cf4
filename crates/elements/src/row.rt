ghost use Rattle.std.specs.Prelude.{◌≤◌, length};
ghost use Rattle.elements.specs.Cells.{room_of};

// A list with the cells that it was handed: the first `count` of them.
// kept: a count beside the cells, since no list asks for memory, and contracts speak of the cells past the count, which stay
#[derive(Drop)]
pub struct Row<T> {
    pub cells: Vec<T>,
    pub count: usize,
    ghost fits: { count ≤ room_of (length cells.items) },
}
