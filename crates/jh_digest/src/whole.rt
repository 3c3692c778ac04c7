// The digest of a whole message, in one call.
ghost use Rattle.std.specs.Prelude.{◌≡◌, ◌/◌, ◌++◌, length, take, drop, MatchResult, OnOk};
ghost use Rattle.jh.specs.Message.{bits_of};
ghost use Rattle.jh.specs.Jh.{jh, jh_over, MeansE8};
ghost use Rattle.refusals.specs.Refusals.{outcome, digest_refusal};

use jh_press::JhPress;
use permutation::Permutation;
use refusals::refusal::Refusal;

// Writes the digest of `size` bits of a message to the front of the buffer, and leaves the rest of the buffer.
// The message is the first `bits` bits of `bytes`. Over a permutation that means E8, the digest is JH's.
// Refuses a size that is none of the four, more than 2^40 bytes, more bits than the bytes have, and a buffer that is too short, in this order.
// Kept: the digest over any press cannot name JH in its contract, and nothing plainer says that here it is JH's.
pub fn digest<P: Permutation>(
    press: &JhPress<P>,
    size: u32,
    bytes: &[u8],
    bits: u64,
    out: &mut [u8],
) -> Result<(), Refusal>
    ensures answer { outcome result ≡ digest_refusal size (length bytes.now) bits (length out.old) }
    ensures written { MatchResult result (λ _. out.new ≡ jh_over (P.image press.now.permutation) size (take bits (bits_of bytes.now)) ++ drop (size / 8) out.old) (λ _. out.new ≡ out.old) }
    ensures jh { MeansE8 (P.image press.now.permutation) → OnOk result (out.new ≡ jh size (take bits (bits_of bytes.now)) ++ drop (size / 8) out.old) }
{
    messages::whole::digest(press, size, bytes, bits, out)
}
