// Fields of a line of a text: a fault tells why one is refused, and the line.
ghost use Rattle.std.specs.Prelude.{◌≡◌, Ok, Err, MatchResult};
ghost use Rattle.refusals.specs.Refusals.{number as number_of};
ghost use Rattle.refusals.specs.declared.refusal.Refusal.TheVariants.{Line};
ghost use Rattle.fields.specs.Faults.{number_at, bytes_at};

use crate::decimals::number;
use crate::hex::bytes;
use refusals::refusal::Refusal;

// A refusal of a field: why, and the line that the field stands on.
// Kept: a type of its own, as for a line and for a text: each layer answers its own fault, and `?` carries it on.
#[derive(Clone, Copy, PartialEq, Eq, Debug)]
pub struct FieldFault {
    pub refusal: Refusal,
    pub line: u32,
}

impl FieldFault {
    // A field of that line is not of its form.
    pub fn malformed(line: u32) -> Self
        ensures refusal { result.refusal ≡ Line }
        ensures line { result.line ≡ line }
    {
        FieldFault {
            refusal: Refusal::Line,
            line,
        }
    }
}

// The number of a decimal field; refuses any other field as malformed.
// Kept: the line beside the field: with a struct of both, line 1 holds its number five times, and a clause says they agree.
pub fn number_at(field: &[u8], line: u32) -> Result<u64, FieldFault>
    ensures { MatchResult result (λ x. number_at line field.now ≡ Ok x) (λ e. number_at line field.now ≡ Err (number_of e.refusal, e.line)) }
{
    number(field).ok_or(FieldFault::malformed(line))
}

// The N bytes of a hexadecimal field; refuses any other field as malformed.
pub fn bytes_at<const N: usize>(field: &[u8], line: u32) -> Result<[u8; N], FieldFault>
    ensures { MatchResult result (λ x. bytes_at line N field.now ≡ Ok x) (λ e. bytes_at line N field.now ≡ Err (number_of e.refusal, e.line)) }
{
    bytes(field).ok_or(FieldFault::malformed(line))
}
