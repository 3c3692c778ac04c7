// A permutation of 1,024 bits, as 128 bytes: forth, and back.
#![tactic(auto)]

ghost use Rattle.std.specs.Prelude.{◌≡◌, List, ℕ};
ghost use Rattle.byte_strings.specs.Bytes.{Bytes};

// Its meaning is two functions, the image of a value and its preimage, and each undoes the other on every 128 bytes.
pub trait Permutation {
    ghost image: { Self → List ℕ → List ℕ };

    ghost preimage: { Self → List ℕ → List ℕ };

    fn forth(&self, state: &mut [u8; 128])
        ensures { state.new ≡ image self.now state.old };

    fn back(&self, state: &mut [u8; 128])
        ensures { state.new ≡ preimage self.now state.old };

    ghost preimage_of_image: { (p : Self) (x : List ℕ) → Bytes 128 x → preimage p (image p x) ≡ x };

    ghost image_of_preimage: { (p : Self) (x : List ℕ) → Bytes 128 x → image p (preimage p x) ≡ x };

    ghost kept: { (p : Self) (x : List ℕ) → Bytes 128 x → Bytes 128 (image p x) × Bytes 128 (preimage p x) };
}
