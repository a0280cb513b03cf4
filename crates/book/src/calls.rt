use elements::error::LoadError;
use elements::options::LoadOptions;

// A call on a book, with its arguments.
// kept: an enum of calls and no closures, since a tape holds them as data
#[derive(Clone, Copy, PartialEq, Debug)]
pub enum Call<'a> {
    Position(f32, f32, f32),
    Colour(f32, f32, f32),
    Texture(f32, f32),
    Normal(f32, f32, f32),
    Face(&'a [u8]),
    Export(LoadOptions, Option<usize>),
}

// What a granted call answers.
// kept: an enum and no `Option`, so that what was done has a name
#[derive(Clone, Copy, PartialEq, Eq, Debug)]
pub enum Reply {
    Done,
    // an export: how many faces it wrote, and how many it skipped
    Exported(usize, usize),
}

// What a call answers.
pub type Answer = Result<Reply, LoadError>;
