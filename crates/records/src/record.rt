// One record of a tape: a call on a book. A face has so many bytes of text after its head word; an export has its options as flags.
// kept: numbers as they stand on the tape, by a rule of the project
#[derive(Clone, Copy, PartialEq, Debug)]
pub enum Record {
    Position(f32, f32, f32),
    Colour(f32, f32, f32),
    Texture(f32, f32),
    Normal(f32, f32, f32),
    Face(u16),
    Export(u8),
}
