// A press: a keyless compression function over chain values of 128 bytes and blocks of 64, with its way back.
#![tactic(auto)]

ghost use Rattle.std.specs.Prelude.{◌≡◌, List, ℕ};
ghost use Rattle.byte_strings.specs.Bytes.{Bytes};
ghost use Rattle.refusals.specs.Sizes.{bits_in};
ghost use Rattle.press.specs.Meaning.{Meaning};
ghost use Rattle.refusals.specs.declared.size.DigestSize.{DigestSize as Size};

use refusals::refusal::Refusal;
use refusals::size::DigestSize;

// A press that comes back, with the refusal of the call that it was given to.
#[derive(Drop)]
pub struct Declined<P> {
    pub press: P,
    pub refusal: Refusal,
}

// A chain value: what stands between two blocks.
pub type Chain = [u8; 128];

// What is taken in at one step; a passage is one block.
pub type Block = [u8; 64];

// A press means four functions of the press and of what is given: three on the way forth, as one `Meaning`, and the way back. A call
// answers its function's value, refuses nothing and leaves the press as it is. `back` undoes `step`, and `step` undoes `back`, with
// the same block.
pub trait Press {
    // The opening value of a digest size, the chain value after a block, and the last block of a row of blocks.
    ghost means: { Self → Meaning };

    // The chain value before a block.
    ghost backs: { Self → List ℕ → List ℕ → List ℕ };

    fn opening(&self, size: DigestSize) -> Chain
        ensures { result ≡ (means self.now).opens (bits_in size) };

    fn step(&self, c: &Chain, m: &Block) -> Chain
        ensures { result ≡ (means self.now).steps c.now m.now };

    fn back(&self, c: &Chain, m: &Block) -> Chain
        ensures { result ≡ backs self.now c.now m.now };

    fn ending(&self, count: u32) -> Block
        ensures { result ≡ (means self.now).ends count };

    ghost opens_chain: { (p : Self) (s : Size) → Bytes 128 ((means p).opens (bits_in s)) };

    ghost steps_chain: { (p : Self) (c m : List ℕ) → Bytes 128 c → Bytes 64 m → Bytes 128 ((means p).steps c m) };

    ghost back_of_step: { (p : Self) (c m : List ℕ) → Bytes 128 c → Bytes 64 m → backs p ((means p).steps c m) m ≡ c };

    ghost step_of_back: { (p : Self) (c m : List ℕ) → Bytes 128 c → Bytes 64 m → (means p).steps (backs p c m) m ≡ c };
}
