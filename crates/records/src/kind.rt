ghost use Rattle.records.specs.Layout.{Names};

// What a record tells, by the top four bits of its head word.
#[derive(Clone, Copy, PartialEq, Eq, Debug)]
pub(crate) enum Kind {
    Position,
    Colour,
    Texture,
    Normal,
    Face,
    Export,
}

// A number that names no kind.
#[derive(Clone, Copy, PartialEq, Eq, Debug)]
pub(crate) struct UnknownKind(pub(crate) u32);

impl TryFrom<u32> for Kind {
    type Error = UnknownKind;

    ghost try_from_gives = { Names };

    fn try_from(number: u32) -> Result<Self, UnknownKind> {
        match number {
            1 => Ok(Kind::Position),
            2 => Ok(Kind::Colour),
            3 => Ok(Kind::Texture),
            4 => Ok(Kind::Normal),
            5 => Ok(Kind::Face),
            6 => Ok(Kind::Export),
            _ => Err(UnknownKind(number)),
        }
    }
}
