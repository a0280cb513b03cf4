ghost use Rattle.std.specs.Prelude.{◌≡◌, ◌+◌, ◌^◌, ◌<◌, true, pos, neg_ℤ};
ghost use Rattle.std.specs.Option.{SomeIff};
ghost use Rattle.reading.specs.Value.{value, below, signed, numeral, number, digits as are_digits, reference as refer_to};

use elements::corner::MISSING_INDEX;

// The number that a part writes: a sign or none, then digits.
pub(crate) fn part_value(bytes: &[u8]) -> Option<i64>
    ensures { result ≡ value bytes.now }
{
    match bytes {
        [b'-', digits @ ..] => negative(digits),
        [b'+', digits @ ..] => positive(digits),
        digits => positive(digits),
    }
}

// What a number refers to in a list of so many. A place before the first is not refused here: it wraps.
pub(crate) fn reference(named: i64, count: usize) -> usize
    ensures { result ≡ refer_to count named }
{
    if named > 0 {
        (named - 1) as usize
    } else if named == 0 {
        MISSING_INDEX
    } else {
        count.wrapping_sub(named.unsigned_abs() as usize)
    }
}

// kept: two functions, since one adds and the other takes away
fn positive(digits: &[u8]) -> Option<i64>
    ensures { result ≡ signed pos (2 ^ 63) digits.now }
{
    0i64.checked_add_unsigned(natural(digits)?)
}

fn negative(digits: &[u8]) -> Option<i64>
    ensures { result ≡ signed (λ n. neg_ℤ (pos n)) (2 ^ 63 + 1) digits.now }
{
    0i64.checked_sub_unsigned(natural(digits)?)
}

// The number that a numeral writes, if it is below 2^64.
fn natural(bytes: &[u8]) -> Option<u64>
    ensures { result ≡ below (2 ^ 64) bytes.now }
{
    if !is_numeral(bytes) {
        return None;
    }
    magnitude(bytes)
}

// Whether there is a byte, and every byte is a digit.
fn is_numeral(bytes: &[u8]) -> bool
    ensures { result ≡ numeral bytes.now }
{
    !bytes.is_empty() && bytes.iter().all(u8::is_ascii_digit)
}

// The number that digits write, if it is below 2^64.
fn magnitude(digits: &[u8]) -> Option<u64>
    requires { are_digits digits.now ≡ true }
    ensures { SomeIff result (number digits.now < 2 ^ 64) (number digits.now) }
{
    let mut sum: u64 = 0;
    for digit in digits {
        sum = sum.checked_mul(10)?.checked_add(u64::from(*digit - b'0'))?;
    }
    Some(sum)
}
