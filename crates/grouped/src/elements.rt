// Rows of N = 2^d elements of four bits: the layers of a round on them, forth and back, and the round R_d with its inverse.
ghost use Rattle.std.specs.Prelude.{◌≡◌, ℕ, ◌*◌, ◌%◌, ◌<◌, List, length};
ghost use Rattle.jh.specs.Row.{Row};
ghost use Rattle.jh.specs.Round.{boxed};
ghost use Rattle.jh.specs.Round.{mix as mixed};
ghost use Rattle.jh.specs.Round.{permute as permuted};
ghost use Rattle.jh.specs.Round.{round as rounded};
ghost use Rattle.jh.specs.Inverse.{unmix as unmixed};
ghost use Rattle.jh.specs.Inverse.{unpermute as unpermuted};
ghost use Rattle.jh.specs.Inverse.{unround as unrounded};
ghost use Rattle.jh.specs.Permutation.{bits};
ghost use Rattle.grouped.specs.Chosen.{chosen};
ghost use Rattle.grouped.specs.Pairs.{MakesPairs, EachPair};

use crate::layers::{bit_of, look_up, mix, unmix};
use crate::tables::{S0, S0_INVERSE, S1, S1_INVERSE};
use std::marker::Model;

// N elements of four bits, one to a byte; N is a multiple of 4.
#[derive(Drop)]
pub(crate) struct Elements<const N: usize> {
    places: [u8; N],
}

impl<const N: usize> Model for Elements<N> {
    ghost Value = { List ℕ };

    ghost view = { λ e. e.places };

    ghost invariant = { λ e. (N % 4 ≡ 0) × Row N e.places };
}

impl<const N: usize> Elements<N> {
    pub(crate) fn new(places: [u8; N]) -> Self
        requires fours { N % 4 ≡ 0 }
        requires row { Row N places }
        ensures { result ≡ places.entry }
    {
        Elements { places }
    }

    // The elements, one to a byte.
    pub(crate) fn places(&self) -> &[u8; N]
        ensures { result.now ≡ self.now }
    {
        &self.places
    }

    // Each element goes through the S-box, `s0` or `s1`, that its bit of `constant` chooses.
    // Kept: that the bits are as many as the elements is a clause here and of the two rounds, since no const argument can be N / 4.
    fn substitute(&mut self, constant: &[u8], s0: &[u8; 16], s1: &[u8; 16])
        requires matched { N ≡ 4 * length constant.now }
        requires elements { (bit : _) (a : ℕ) → a < 16 → chosen s0.now s1.now bit a < 16 }
        ensures { self.new ≡ boxed (chosen s0.now s1.now) (bits constant.now) self.old }
    {
        for (i, element) in self.places.iter_mut().enumerate() {
            *element = look_up(s0, s1, bit_of::<4>(constant, i), *element);
        }
    }

    // Each pair of neighbours becomes what `layer` makes of it.
    fn on_pairs<F: Fn((u8, u8)) -> (u8, u8)>(&mut self, layer: F)
        requires callable { (a b : ℕ) → a < 16 → b < 16 → F.pre layer (a, b) }
        requires elements { MakesPairs (F.post layer) }
        ensures { EachPair (F.post layer) self.old self.new }
    {
        let from = self.places;
        // Kept: written by place, here and in the two below, and a second row read by it, since of chunks that were lent to be written a proof knows only how many there are.
        for (i, &[a, b]) in from.as_chunks::<2>().0.iter().enumerate() {
            let (c, d) = layer((a, b));
            self.places[2 * i] = c;
            self.places[2 * i + 1] = d;
        }
    }

    // L acts on each pair of neighbours.
    fn mix_pairs(&mut self)
        ensures { self.new ≡ mixed self.old }
    {
        self.on_pairs(mix);
    }

    // The inverse of L acts on each pair of neighbours.
    fn unmix_pairs(&mut self)
        ensures { self.new ≡ unmixed self.old }
    {
        self.on_pairs(unmix);
    }

    // P_d: the last two of each four change places, the even places go to the first half and the odd ones to the second,
    // and each pair in the second half changes places.
    fn permute(&mut self)
        ensures { self.new ≡ permuted self.old }
    {
        let from = self.places;
        for (i, &[a, b, c, d]) in from.as_chunks::<4>().0.iter().enumerate() {
            let (low, high) = (2 * i, N / 2 + 2 * i);
            self.places[low] = a;
            self.places[low + 1] = d;
            self.places[high] = c;
            self.places[high + 1] = b;
        }
    }

    // The inverse of P_d.
    fn unpermute(&mut self)
        ensures { self.new ≡ unpermuted self.old }
    {
        let from = self.places;
        let (low, high) = from.split_at(N / 2);
        let high = high.as_chunks::<2>().0;
        for (i, &[a, d]) in low.as_chunks::<2>().0.iter().enumerate() {
            let [c, b] = high[i];
            self.places[4 * i] = a;
            self.places[4 * i + 1] = b;
            self.places[4 * i + 2] = c;
            self.places[4 * i + 3] = d;
        }
    }

    // R_d at N = 2^d, with the bits of `constant`.
    pub(crate) fn round(&mut self, constant: &[u8])
        requires { N ≡ 4 * length constant.now }
        ensures { self.new ≡ rounded (bits constant.now) self.old }
    {
        self.substitute(constant, &S0, &S1);
        self.mix_pairs();
        self.permute();
    }

    // The inverse of R_d.
    pub(crate) fn unround(&mut self, constant: &[u8])
        requires { N ≡ 4 * length constant.now }
        ensures { self.new ≡ unrounded (bits constant.now) self.old }
    {
        self.unpermute();
        self.unmix_pairs();
        self.substitute(constant, &S0_INVERSE, &S1_INVERSE);
    }
}
