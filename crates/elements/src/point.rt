ghost use Rattle.std.specs.Prelude.{◌≡◌, false, is_nan};

// A position, a colour or a normal: three numbers, none of them NaN.
// kept: two structs of f32 and no array of `N`, a form that the project asks for
#[derive(Clone, Copy, Debug)]
pub struct Point {
    pub x: f32,
    pub y: f32,
    pub z: f32,
    ghost numbers: { (is_nan x ≡ false) × (is_nan y ≡ false) × (is_nan z ≡ false) },
}

// A texture coordinate: two numbers, none of them NaN.
#[derive(Clone, Copy, Debug)]
pub struct Pair {
    pub u: f32,
    pub v: f32,
    ghost numbers: { (is_nan u ≡ false) × (is_nan v ≡ false) },
}
