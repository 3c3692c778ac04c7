// Decimal numbers, read.
ghost use Rattle.std.specs.Prelude.{◌≡◌, ◌≤◌, true, length};
ghost use Rattle.std.specs.Str.{all_ascii_digits};
ghost use Rattle.fields.specs.Decimals.{is_decimal, read_on, number_of};

fn all_digits(field: &[u8]) -> bool
    ensures { result ≡ all_ascii_digits field.now }
{
    field.iter().all(|b| b.is_ascii_digit())
}

fn is_decimal(field: &[u8]) -> bool
    ensures { result ≡ is_decimal field.now }
{
    matches!(field.len(), 1..=16) && (field[0] != b'0' || field.len() == 1) && all_digits(field)
}

// The number that at most 16 digits write.
// Kept: a loop over the digits, for speed: the library's `parse`, of a text that `from_utf8` has tested, takes twice the time.
fn value_of(field: &[u8]) -> u64
    requires { (length field.now ≤ 16) × (all_ascii_digits field.now ≡ true) }
    ensures { result ≡ read_on 0 field.now }
{
    let mut value: u64 = 0;
    for b in field {
        value = 10 * value + u64::from(*b - b'0');
    }
    value
}

// The number of a field of 1 to 16 digits with no leading zero but in 0; none for any other field.
pub fn number(field: &[u8]) -> Option<u64>
    ensures { result ≡ number_of field.now }
{
    if is_decimal(field) {
        Some(value_of(field))
    } else {
        None
    }
}
