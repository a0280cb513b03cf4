ghost use Rattle.std.specs.Prelude.{Some};
ghost use Rattle.records.specs.Shown.{shown};

use crate::line::{Line, Size};
use std::fmt;

impl fmt::Display for Line {
    ghost output = { λ l. Some (shown l) };

    fn fmt<W: fmt::Write>(&self, f: &mut fmt::Formatter<W>) -> fmt::Result {
        match (self.answer, self.size) {
            (Ok(_), Some(Size { indices, positions })) => {
                write!(f, "{} 0 {indices} {positions}", self.kind)
            }
            (Ok(_), None) => write!(f, "{} 0", self.kind),
            (Err(error), _) => write!(f, "{} {}", self.kind, error.number()),
        }
    }
}
