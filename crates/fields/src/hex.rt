// Lower-case hexadecimal, two digits to a byte, the high half first.
ghost use Rattle.std.specs.Prelude.{◌≡◌, ◌+◌, ◌*◌, ◌<◌, true, ◌&&◌, [], ◌∷◌, length, ◌==◌, slice_index};
ghost use Rattle.fields.specs.Hex.{is_hex_digit, nibble as nibble_of, all_hex, bytes_of, read_hex, hex_digit, hex_of};

use std::array;

fn is_hex_digit(b: u8) -> bool
    ensures { result ≡ is_hex_digit b }
{
    matches!(b, b'0'..=b'9' | b'a'..=b'f')
}

// The value of a digit.
fn nibble(b: u8) -> u8
    requires { is_hex_digit b ≡ true }
    ensures value { result ≡ nibble_of b }
    ensures small { result < 16 }
{
    if b <= b'9' { b - b'0' } else { b - b'a' + 10 }
}

fn all_hex(field: &[u8]) -> bool
    ensures { result ≡ all_hex field.now }
{
    field.iter().all(|b| is_hex_digit(*b))
}

// The byte of two digits, the high half first.
fn byte(high: u8, low: u8) -> u8
    requires { (is_hex_digit high ≡ true) × (is_hex_digit low ≡ true) }
    ensures { result ≡ 16 * nibble_of high + nibble_of low }
{
    16 * nibble(high) + nibble(low)
}

// Byte i that a field writes.
fn byte_at(field: &[u8], i: usize) -> u8
    requires { (2 * i + 1 < length field.now) × (all_hex field.now ≡ true) }
    ensures { result ≡ slice_index (bytes_of field.now) i }
{
    byte(field[2 * i], field[2 * i + 1])
}

// Whether a field writes n bytes.
fn is_hex(field: &[u8], n: usize) -> bool
    ensures { result ≡ (length field.now == 2 * n && all_hex field.now) }
{
    let len = field.len();
    len % 2 == 0 && len / 2 == n && all_hex(field)
}

// The bytes that pairs of digits stand for.
// Kept: no plainer with the kit's `hex`, which takes capitals too: the digits would still be tested here first.
fn unhex<const N: usize>(field: &[u8]) -> [u8; N]
    requires { (length field.now ≡ 2 * N) × (all_hex field.now ≡ true) }
    ensures { result ≡ bytes_of field.now }
{
    array::from_fn(|i| byte_at(field, i))
}

// The N bytes that a field of 2 N digits writes; none for a field of another length or with another byte.
pub fn bytes<const N: usize>(field: &[u8]) -> Option<[u8; N]>
    ensures { result ≡ read_hex N field.now }
{
    if is_hex(field, N) {
        Some(unhex(field))
    } else {
        None
    }
}

// The digit of a value below 16.
fn digit(n: u8) -> u8
    requires { n < 16 }
    ensures { result ≡ hex_digit n }
{
    if n < 10 { b'0' + n } else { b'a' + (n - 10) }
}

// The two digits of a byte.
pub(crate) fn digits(b: u8) -> [u8; 2]
    ensures { result ≡ hex_of (b ∷ []) }
{
    [digit(b / 16), digit(b % 16)]
}
