ghost use Rattle.std.specs.Prelude.{◌+◌, ◌^◌, ◌<◌, length};

// A token of a face text, with where it begins there.
#[derive(Clone, Copy)]
pub struct Token<'a> {
    pub bytes: &'a [u8],
    pub at: usize,
    ghost fits: { at + length bytes.now < 2 ^ 64 },
}

// A part of a token, with where it begins in the face text.
// kept: an enum and no `Option`, a form that the project asks for: an empty part has its place in the text too
#[derive(Clone, Copy)]
pub enum Part<'a> {
    Empty { at: usize },
    Filled { bytes: &'a [u8], at: usize },
}

// Reads tokens: the text that is left, and where that begins.
#[derive(Drop)]
pub struct Tokens<'a> {
    pub rest: &'a [u8],
    pub at: usize,
    ghost fits: { at + length rest.now < 2 ^ 64 },
}

// Reads the parts of a token: what is left of it, or none after its last part.
#[derive(Drop)]
pub struct Parts<'a> {
    pub rest: Option<Token<'a>>,
}
