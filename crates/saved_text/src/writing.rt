// A saved text, written.
ghost use Rattle.std.specs.Prelude.{◌≡◌, ◌≤◌, ◌++◌, length, take, Ok, codes};
ghost use Rattle.std.specs.List.{flat_map, AllByRecursion};
ghost use Rattle.byte_strings.specs.Bytes.{Bytes};
ghost use Rattle.passages.specs.Rows.{encoded_all};
ghost use Rattle.text_laws.specs.Written.{field_text, hex_line, numbers_text, numbers_told, pass_text, text_of};
ghost use Rattle.text_laws.specs.Saved.{read_text};
ghost use Rattle.text_laws.specs.Valid.{Valid, Wide};
ghost use Rattle.saved_text.specs.Views.{read_numbers};
ghost use Rattle.saved_text.specs.Snapshots.{capacity, saved_in, Saves};

use crate::head::LineNumbers;
use crate::snapshot::Snapshot;
use fields::text::Text;
use passages::passage::Passage;
use press::Block;
use refusals::refusal::Refusal;

// The most bytes that a saved text has: 110 in line 1, 263 in line 2, and 134 for each of 32 passages.
const MOST: usize = 110 + 263 + 134 * 32;

// Adds a tab and a decimal number.
// Kept: by `write!` a block's digits need a type with a `Display`, and each call answers a Result, though none can fail.
fn push_field(text: &mut Text<MOST>, n: u64)
    ensures bytes { text.new ≡ take capacity (text.old ++ field_text n) }
    ensures short { length (field_text n) ≤ 21 }
{
    text.push(b"\t");
    text.push_number(n);
}

// Adds a line of a word and the digits of bytes.
fn push_line(text: &mut Text<MOST>, word: &[u8], bytes: &[u8])
    ensures bytes { text.new ≡ take capacity (text.old ++ hex_line word.now bytes.now) }
    ensures wide { Bytes (length bytes.now) bytes.now }
{
    text.push(word);
    text.push(b"\t");
    text.push_hex(bytes);
    text.push(b"\n");
}

// Adds line 1.
fn push_head(text: &mut Text<MOST>, numbers: &LineNumbers)
    ensures bytes { text.new ≡ take capacity (text.old ++ numbers_text (read_numbers numbers.now)) }
    ensures short { length (numbers_text (read_numbers numbers.now)) ≤ 110 }
{
    text.push(b"roll");
    push_field(text, numbers.size);
    push_field(text, numbers.shipped);
    push_field(text, numbers.last);
    push_field(text, numbers.cents);
    push_field(text, numbers.window);
    text.push(b"\n");
}

// Adds the lines of the passages, oldest first.
fn push_passages(text: &mut Text<MOST>, passages: &[Passage])
    ensures bytes { text.new ≡ take capacity (text.old ++ flat_map pass_text (encoded_all passages.now)) }
    ensures wide { AllByRecursion (Bytes 64) (encoded_all passages.now) }
{
    prove!(text.as_slice().len() <= MOST);
    for passage in passages {
        push_line(text, b"pass", &Block::from(passage));
    }
}

// Copies a text into the front of a buffer, and answers its length. A shorter buffer is refused and left as it is.
fn copy(text: &[u8], out: &mut [u8]) -> Result<usize, Refusal>
    ensures { Saves out.old out.new text.now result }
{
    if out.len() < text.len() {
        return Err(Refusal::Buffer);
    }
    out[0..text.len()].copy_from_slice(text);
    Ok(text.len())
}

// The numbers of line 1.
impl From<&Snapshot> for LineNumbers {
    ghost from_gives = { λ snapshot numbers. read_numbers numbers ≡ numbers_told (saved_in snapshot.now) };

    fn from(snapshot: &Snapshot) -> Self {
        LineNumbers {
            size: u64::from(snapshot.size.bits()),
            shipped: u64::from(snapshot.shipped),
            last: u64::from(snapshot.last),
            cents: snapshot.cents,
            window: snapshot.window.len() as u64,
        }
    }
}

impl Snapshot {
    fn text(&self) -> Text<MOST>
        ensures bytes { result ≡ text_of (saved_in self.now) }
        ensures wide { Wide (saved_in self.now) }
    {
        let mut text = Text::new();
        push_head(&mut text, &LineNumbers::from(self));
        push_line(&mut text, b"chain", &self.chain);
        push_passages(&mut text, self.window.as_slice());
        text
    }

    // Writes the saved text into the front of a buffer, and answers its length. A shorter buffer is refused and left as it is.
    pub fn write(&self, out: &mut [u8]) -> Result<usize, Refusal>
        ensures text { Saves out.old out.new (text_of (saved_in self.now)) result }
        ensures reads { Valid (saved_in self.now) → read_text (text_of (saved_in self.now)) ≡ Ok (saved_in self.now) }
        ensures wide { Wide (saved_in self.now) }
    {
        copy(self.text().as_slice(), out)
    }
}
