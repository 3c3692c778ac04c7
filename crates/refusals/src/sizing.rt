// Numbers of refusals and sizes.
ghost use Rattle.std.specs.Prelude.{◌≡◌, ◌/◌};
ghost use Rattle.refusals.specs.Refusals.{number as number_of};
ghost use Rattle.refusals.specs.Refusals.{ReadsSize};
ghost use Rattle.refusals.specs.Sizes.{bits_in};

use crate::refusal::Refusal;
use crate::size::DigestSize;

// The number by which a refusal is told.
impl From<Refusal> for u8 {
    ghost from_gives = { λ refusal n. n ≡ number_of refusal };

    fn from(refusal: Refusal) -> u8 {
        refusal as u8
    }
}

// The digest size of so many bits; refuses any but the four.
impl TryFrom<u32> for DigestSize {
    type Error = Refusal;

    ghost try_from_gives = { ReadsSize };

    fn try_from(bits: u32) -> Result<Self, Refusal> {
        match bits {
            224 => Ok(DigestSize::D224),
            256 => Ok(DigestSize::D256),
            384 => Ok(DigestSize::D384),
            512 => Ok(DigestSize::D512),
            _ => Err(Refusal::Size),
        }
    }
}

impl DigestSize {
    // How many bits a digest of this size has.
    pub fn bits(self) -> u16
        ensures { result ≡ bits_in self }
    {
        self as u16
    }

    // How many bytes a digest of this size has.
    pub fn bytes(self) -> usize
        ensures { result ≡ bits_in self / 8 }
    {
        usize::from(self.bits() / 8)
    }
}
