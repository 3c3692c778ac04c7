// Texts in the making. What does not fit into a text any more is cut off.
ghost use Rattle.std.specs.Prelude.{◌≡◌, ◌≤◌, [], ◌++◌, length, take, decimal};
ghost use Rattle.fields.specs.Hex.{hex_of};

use crate::hex::digits;
use itoa::Buffer;
use std::marker::Model;

// A text of at most N bytes, the first `len` of `bytes`. The others are zeros.
// Kept: no heap may be used here, callers copy a text, and the kit's `ArrayVec` is not Copy.
#[derive(Clone, Copy)]
pub struct Text<const N: usize> {
    bytes: [u8; N],
    len: usize,
}

impl<const N: usize> Model for Text<N> {
    ghost use Rattle.std.specs.Prelude.{◌≡◌, ℕ, ◌-◌, ◌≤◌, List, ◌++◌, length, take, drop, replicate};
    ghost use Rattle.std.proofs.lemmas.List.{length-take-le, take-append-drop};

    ghost Value = { List ℕ };

    ghost view = { λ t. take t.len t.bytes };

    ghost invariant = { λ t. (length t.bytes ≡ N) × (t.len ≤ N) × (drop t.len t.bytes ≡ replicate (N - t.len) 0) };

    ghost inverse = { λ l. record { bytes = l ++ replicate (N - length l) 0; len = length l } };

    ghost inverse_ok = { λ t h. rw (length-take-le t.len t.bytes (rw h.0 h.1), ← h.2, take-append-drop) };
}

impl<const N: usize> Text<N> {
    // A text of no bytes.
    pub fn new() -> Self
        ensures { result ≡ [] }
    {
        Text {
            bytes: [0; N],
            len: 0,
        }
    }

    // The bytes of the text.
    pub fn as_slice(&self) -> &[u8]
        ensures value { result.now ≡ self.now }
        ensures short { length result.now ≤ N }
    {
        let all = &self.bytes[..];
        &all[..self.len]
    }

    // Adds bytes at the end.
    pub fn push(&mut self, part: &[u8])
        ensures { self.new ≡ take N (self.old ++ part.now) }
    {
        let n = part.len().min(N - self.len);
        let all = &mut self.bytes[..];
        all[self.len..self.len + n].copy_from_slice(&part[..n]);
        self.len += n;
    }

    // Adds two bytes at the end.
    // Kept: beside `push`, for speed: of two bytes that fit, the copy is one store, where `push` calls for a copy of a length it does
    // not know; hexadecimal digits come two at a time.
    fn push_two(&mut self, pair: &[u8; 2])
        ensures { self.new ≡ take N (self.old ++ pair.now) }
    {
        if N - self.len < 2 {
            self.push(pair);
        } else {
            let all = &mut self.bytes[..];
            all[self.len..self.len + 2].copy_from_slice(pair);
            self.len += 2;
        }
    }

    // Adds the decimal digits of a number.
    pub fn push_number(&mut self, n: u64)
        ensures { self.new ≡ take N (self.old ++ decimal n) }
    {
        self.push(Buffer::new().format(n).as_bytes());
    }

    // Adds the hexadecimal digits of bytes.
    pub fn push_hex(&mut self, bytes: &[u8])
        ensures { self.new ≡ take N (self.old ++ hex_of bytes.now) }
    {
        prove!(self.len <= N);
        for b in bytes {
            self.push_two(&digits(*b));
        }
    }
}
