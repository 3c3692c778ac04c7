// Digests of whole messages of bytes.
ghost use Rattle.std.specs.Prelude.{◌≡◌, ◌*◌, length};
ghost use Rattle.refusals.specs.Refusals.{outcome};
ghost use Rattle.jh.specs.Jh.{MeansE8};
ghost use Rattle.bench_interface.specs.Calls.{refusal, digested};

use grouped::Grouped;
use jh_digest::whole::digest;
use jh_press::JhPress;
use permutation::Permutation;
use refusals::refusal::Refusal;
use sliced::Sliced;

// Writes the JH digest of `size` bits of the message to the front of the buffer, by the sliced permutation.
// Answers 0, or the number of the refusal, and then leaves the buffer.
#[unsafe(no_mangle)]
pub extern "C" fn gobutlin_jh(size: u32, message: &[u8], out: &mut [u8]) -> u32
    ensures answer { result ≡ refusal size message.now out.old }
    ensures written { out.new ≡ digested size message.now out.old }
{
    number(digest_of_bytes(&JhPress::new(Sliced), size, message, out))
}

// The same by the grouped permutation.
// Kept: the C interface has a name for each form of the permutation; both hand on to one function.
#[unsafe(no_mangle)]
pub extern "C" fn gobutlin_jh_grouped(size: u32, message: &[u8], out: &mut [u8]) -> u32
    ensures answer { result ≡ refusal size message.now out.old }
    ensures written { out.new ≡ digested size message.now out.old }
{
    number(digest_of_bytes(&JhPress::new(Grouped), size, message, out))
}

// 0, or the number of the refusal.
// Kept: a number of both, since the C interface has no Result.
fn number(answer: Result<(), Refusal>) -> u32
    ensures { result ≡ outcome answer }
{
    match answer {
        Ok(()) => 0,
        Err(refusal) => u32::from(u8::from(refusal)),
    }
}

fn digest_of_bytes<P: Permutation>(
    press: &JhPress<P>,
    size: u32,
    message: &[u8],
    out: &mut [u8],
) -> Result<(), Refusal>
    requires { MeansE8 (P.image press.now.permutation) }
    ensures answer { outcome result ≡ refusal size message.now out.old }
    ensures written { out.new ≡ digested size message.now out.old }
{
    let bits = 8 * (message.len() as u64).min(1 << 40);
    digest(press, size, message, bits, out)
}
