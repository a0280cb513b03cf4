ghost use Rattle.std.specs.Prelude.{◌≡◌, not, ◌&&◌};

// How an export turns waiting faces into a mesh.
#[derive(Clone, Copy, PartialEq, Eq, Debug, Default)]
pub struct LoadOptions {
    pub single_index: bool,
    pub triangulate: bool,
    pub ignore_points: bool,
    pub ignore_lines: bool,
    pub merge_identical_points: bool,
}

impl LoadOptions {
    // Whether the options agree with each other: merging needs separate indices.
    pub fn is_valid(&self) -> bool
        ensures { result ≡ not (self.now.single_index && self.now.merge_identical_points) }
    {
        !(self.single_index && self.merge_identical_points)
    }
}
