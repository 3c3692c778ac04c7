// 128 elements of four bits, and what a round does to each of them.
ghost use Rattle.std.specs.Prelude.{◌≡◌, ℕ, ◌<◌};
ghost use Rattle.std.specs.Int.Bits.{bit_xor};
ghost use Rattle.jh.specs.Field.{times};
ghost use Rattle.jh.specs.Round.{sbox};
ghost use Rattle.jh.specs.Inverse.{unsbox};
ghost use Rattle.words.specs.Bits.{word_bit};
ghost use Rattle.words.specs.Widths.{run_length};
ghost use Rattle.sliced.specs.Slices.{element_at};

use words::{Width, Word};

// Element i is bit i of each word, the first word's the highest.
// Kept: four fields. The circuits take and make each word by its own name, so a pattern of an array of four at each of them would be as long as the fields are.
#[derive(Clone, Copy)]
pub(crate) struct Slices(
    pub(crate) Word,
    pub(crate) Word,
    pub(crate) Word,
    pub(crate) Word,
);

impl Slices {
    // Each element goes through the S-box that its bit of `c` chooses.
    pub(crate) fn substitute(self, c: Word) -> Slices
        ensures { (i : ℕ) → element_at result i ≡ sbox (word_bit c i) (element_at self i) }
    {
        let Slices(x0, x1, x2, x3) = self;
        let n3 = !x3;
        let p0 = x0 ^ (c & !x2);
        let t = c ^ (p0 & x1);
        let q0 = p0 ^ (x2 & n3);
        let q3 = n3 ^ (!x1 & x2);
        let q1 = x1 ^ (q0 & x2);
        let q2 = x2 ^ (q0 & !q3);
        let y0 = q0 ^ (q1 | q3);
        let y3 = q3 ^ (q1 & q2);
        let y1 = q1 ^ (t & y0);
        let y2 = q2 ^ t;
        Slices(y0, y1, y2, y3)
    }

    // Each element goes back through that S-box: a circuit of its own, six gates deep, since the steps of `substitute`
    // taken backwards wait for one another.
    pub(crate) fn unsubstitute(self, c: Word) -> Slices
        ensures { (i : ℕ) → element_at result i ≡ unsbox (word_bit c i) (element_at self i) }
    {
        let Slices(y0, y1, y2, y3) = self;
        let n3 = !y3;
        let t0 = y0 ^ y3;
        let t1 = y1 & !y0;
        let t2 = y2 ^ c;
        let t3 = y1 ^ (y0 & !c);
        let t4 = t0 & t2;
        let t5 = n3 & t2;
        let t6 = t0 & (t3 ^ t5);
        let t7 = (y0 ^ t4) & !t3;
        let x1 = t6 ^ t7;
        let x2 = (n3 & t3) ^ (t2 & !t1);
        let x3 = (n3 & !t1) ^ t4 ^ (t2 | t6);
        let x0 = ((t0 | t5) & !t7) ^ (c & !x2);
        Slices(x0, x1, x2, x3)
    }

    // To each element twice the other one is added, in the field of 16 elements.
    pub(crate) fn plus_twice(self, other: Slices) -> Slices
        ensures { (i : ℕ) → element_at result i ≡ bit_xor (element_at self i) (times 2 (element_at other i)) }
    {
        let Slices(x0, x1, x2, x3) = self;
        let Slices(y0, y1, y2, y3) = other;
        let z0 = x0 ^ y1;
        let z1 = x1 ^ y2;
        let z2 = x2 ^ y3 ^ y0;
        let z3 = x3 ^ y0;
        Slices(z0, z1, z2, z3)
    }

    // Neighbouring runs of elements change places.
    pub(crate) fn exchange(self, width: Width) -> Slices
        ensures { (i : ℕ) → i < 128 → element_at result i ≡ element_at self (bit_xor i (run_length width)) }
    {
        Slices(
            self.0.exchange(width),
            self.1.exchange(width),
            self.2.exchange(width),
            self.3.exchange(width),
        )
    }
}
