// The eight words that 128 bytes hold, the high byte of each first.
ghost use Rattle.std.specs.Prelude.{◌≡◌, ℕ, ◌+◌, ◌*◌, ◌<◌, ◌≤◌};
ghost use Rattle.byte_strings.specs.Bytes.{Bytes};
ghost use Rattle.jh.specs.Permutation.{byte_bit};
ghost use Rattle.words.specs.Eight.{HalfAt, WordAt, WordsIn};

use crate::Word;
use std::array;

// Words 0 to 7.
#[derive(Clone, Copy)]
pub struct EightWords(pub [Word; 8]);

impl EightWords {
    // The words that the bytes hold.
    pub fn read(bytes: &[u8; 128]) -> EightWords
        ensures { WordsIn bytes.now result }
    {
        EightWords(array::from_fn(|k| read_word(bytes, k)))
    }

    // The bytes now hold these words.
    pub fn write(self, bytes: &mut [u8; 128])
        ensures words { WordsIn bytes.new self }
        ensures bytes { Bytes 128 bytes.new }
    {
        for (k, word) in self.0.iter().enumerate() {
            write_word(bytes, k, *word);
        }
    }
}

fn read_word(bytes: &[u8; 128], k: usize) -> Word
    requires { k < 8 }
    ensures { WordAt bytes.now k result }
{
    Word::new(read_half(bytes, 16 * k), read_half(bytes, 16 * k + 8))
}

fn read_half(bytes: &[u8; 128], at: usize) -> u64
    requires { at + 8 ≤ 128 }
    ensures { HalfAt bytes.now at result }
{
    let mut half = [0; 8];
    half.copy_from_slice(&bytes[at..at + 8]);
    u64::from_be_bytes(half)
}

// Kept: that 128 bytes stand there afterwards is a clause of all three writes, since a model of the bytes would be unwrapped at each call.
fn write_word(bytes: &mut [u8; 128], k: usize, word: Word)
    requires { k < 8 }
    ensures here { WordAt bytes.new k word }
    ensures below { (j : ℕ) → j < 128 * k → byte_bit bytes.new j ≡ byte_bit bytes.old j }
    ensures bytes { Bytes 128 bytes.new }
{
    let (high, low) = word.halves();
    write_half(bytes, 16 * k, high);
    write_half(bytes, 16 * k + 8, low);
}

fn write_half(bytes: &mut [u8; 128], at: usize, half: u64)
    requires { at + 8 ≤ 128 }
    ensures here { HalfAt bytes.new at half }
    ensures below { (j : ℕ) → j < 8 * at → byte_bit bytes.new j ≡ byte_bit bytes.old j }
    ensures bytes { Bytes 128 bytes.new }
{
    bytes[at..at + 8].copy_from_slice(&half.to_be_bytes());
}
