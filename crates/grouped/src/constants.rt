// The round constants.
ghost use Rattle.std.specs.Prelude.{◌≡◌};
ghost use Rattle.jh.specs.Round.{round as rounded};
ghost use Rattle.jh.specs.Inverse.{unround as unrounded};
ghost use Rattle.jh.specs.Constants.{zeros};
ghost use Rattle.jh.specs.Constants.{constant as constant_of};

use crate::elements::Elements;
use crate::tables::C0;
use std::array;

// C_0, element by element.
pub(crate) fn first_constant() -> Elements<64>
    ensures { result ≡ constant_of 0 }
{
    Elements::new(array::from_fn(|i| { ((C0[i / 16] >> (60 - i % 16 * 4)) % 16) as u8 }))
}

// From C_r to C_(r + 1).
pub(crate) fn advance(constant: &mut Elements<64>)
    ensures { constant.new ≡ rounded zeros constant.old }
{
    constant.round(&[0; 16]);
}

// From C_(r + 1) to C_r.
pub(crate) fn retreat(constant: &mut Elements<64>)
    ensures { constant.new ≡ unrounded zeros constant.old }
{
    constant.unround(&[0; 16]);
}

// The constant of round r, as a row.
pub(crate) fn constant_at(r: u8) -> Elements<64>
    ensures { result ≡ constant_of r }
{
    let mut constant = first_constant();
    for _i in 0..r {
        advance(&mut constant);
    }
    constant
}

// The constant of round r, in 64 elements: C_r of the JH report for r below 42, and on by the same rule.
pub fn round_constant(r: u8) -> [u8; 64]
    ensures { result ≡ constant_of r }
{
    *constant_at(r).places()
}
