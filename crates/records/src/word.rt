ghost use Rattle.std.specs.Prelude.{◌≡◌, ◌+◌, ◌≤◌, length};
ghost use Rattle.records.specs.Layout.{word_at, float_at};

use std::num::f32_from_bits_with_nan;

// The word at a place, its lowest byte first.
pub(crate) fn word(tape: &[u8], at: usize) -> u32
    requires { at + 4 ≤ length tape.now }
    ensures { result ≡ word_at tape.now at }
{
    // kept: four bytes by index, since an array that is made of a slice may fail
    u32::from_le_bytes([tape[at], tape[at + 1], tape[at + 2], tape[at + 3]])
}

// The number whose bits stand at a place. A pattern of NaN gives NaN: the call that gets it refuses it.
pub(crate) fn float(tape: &[u8], at: usize) -> f32
    requires { at + 4 ≤ length tape.now }
    ensures { result ≡ float_at tape.now at }
{
    f32_from_bits_with_nan(word(tape, at))
}
