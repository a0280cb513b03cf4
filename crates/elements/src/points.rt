ghost use Rattle.std.specs.Prelude.{◌≡◌, true, false, ◌||◌, [], ◌∷◌, IfOk, is_nan};
ghost use Rattle.elements.specs.Bits.{point_bits, pair_bits};
ghost use Rattle.elements.specs.Checks.{refusal, first};
ghost use Rattle.elements.specs.declared.error.LoadError.TheVariants.{NotANumber};

use crate::error::LoadError;
use crate::point::{Pair, Point};

impl Point {
    // Three zeros: what fills a place that has no point.
    pub const ZERO: Point = Point {
        x: 0.0,
        y: 0.0,
        z: 0.0,
    };

    // These three numbers, refused if one of them is NaN.
    pub fn new(x: f32, y: f32, z: f32) -> Result<Point, LoadError>
        ensures refused { refusal result ≡ first ((is_nan x || (is_nan y || is_nan z), NotANumber) ∷ []) }
        ensures made { IfOk result (λ p. (p.x ≡ x) × (p.y ≡ y) × (p.z ≡ z)) }
    {
        if x.is_nan() || y.is_nan() || z.is_nan() {
            return Err(LoadError::NotANumber);
        }
        Ok(Point { x, y, z })
    }

    // The bits of the three numbers, so that 0 and -0 are told apart.
    pub fn bits(&self) -> [u32; 3]
        ensures { result ≡ point_bits self.now }
    {
        [self.x.to_bits(), self.y.to_bits(), self.z.to_bits()]
    }
}

impl Pair {
    // Two zeros: what fills a place that has no texture.
    pub const ZERO: Pair = Pair { u: 0.0, v: 0.0 };

    // These two numbers, refused if one of them is NaN.
    pub fn new(u: f32, v: f32) -> Result<Pair, LoadError>
        ensures refused { refusal result ≡ first ((is_nan u || is_nan v, NotANumber) ∷ []) }
        ensures made { IfOk result (λ p. (p.u ≡ u) × (p.v ≡ v)) }
    {
        if u.is_nan() || v.is_nan() {
            return Err(LoadError::NotANumber);
        }
        Ok(Pair { u, v })
    }

    // The bits of the two numbers.
    pub fn bits(&self) -> [u32; 2]
        ensures { result ≡ pair_bits self.now }
    {
        [self.u.to_bits(), self.v.to_bits()]
    }
}
