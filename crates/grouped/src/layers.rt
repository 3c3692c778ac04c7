// What the layers of a round make of one element, and of a pair: the S-boxes, L and its inverse.
// Kept: an element is a `u8` below 16 by clause; with a type of its own, rows, tables and constants would be unwrapped at each use.
ghost use Rattle.std.specs.Prelude.{◌≡◌, ◌-◌, ◌/◌, ◌%◌, ◌<◌, ◌≤◌, length, slice_index};
ghost use Rattle.jh.specs.Bit.{bit};
ghost use Rattle.jh.specs.Field.{times};
ghost use Rattle.jh.specs.Round.{first, second};
ghost use Rattle.jh.specs.Inverse.{unfirst, unsecond};
ghost use Rattle.grouped.specs.Chosen.{chosen};

// What the S-box that a constant bit chooses makes of `a`: `s0` where the bit is 0, `s1` where it is 1.
pub(crate) fn look_up(s0: &[u8; 16], s1: &[u8; 16], bit: bool, a: u8) -> u8
    requires { a < 16 }
    ensures { result ≡ chosen s0.now s1.now bit a }
{
    if bit { s1[a as usize] } else { s0[a as usize] }
}

// Bit i of a row of numbers of WIDTH bits, the highest bit of each first.
pub(crate) fn bit_of<const WIDTH: usize>(row: &[u8], i: usize) -> bool
    requires width { (0 < WIDTH) × (WIDTH ≤ 8) }
    requires place { i / WIDTH < length row.now }
    ensures { result ≡ bit (slice_index row.now (i / WIDTH)) (WIDTH - 1 - i % WIDTH) }
{
    (row[i / WIDTH] >> (WIDTH - 1 - i % WIDTH)) % 2 == 1
}

// Twice an element, as a binary polynomial modulo x^4 + x + 1.
fn double(a: u8) -> u8
    requires { a < 16 }
    ensures value { result ≡ times 2 a }
    ensures small { result < 16 }
{
    (a * 2 % 16) ^ (a / 8 * 3)
}

// L on a pair of elements: C = 5•A + 2•B and D = 2•A + B, by two doublings.
pub(crate) fn mix(pair: (u8, u8)) -> (u8, u8)
    requires { (pair.0 < 16) × (pair.1 < 16) }
    ensures { result ≡ (first pair.0 pair.1, second pair.0 pair.1) }
{
    let (a, b) = pair;
    let d = double(a) ^ b;
    let c = a ^ double(d);
    (c, d)
}

// The pair that L turns into this one.
pub(crate) fn unmix(pair: (u8, u8)) -> (u8, u8)
    requires { (pair.0 < 16) × (pair.1 < 16) }
    ensures { result ≡ (unfirst pair.0 pair.1, unsecond pair.0 pair.1) }
{
    let (c, d) = pair;
    let a = c ^ double(d);
    let b = d ^ double(a);
    (a, b)
}
