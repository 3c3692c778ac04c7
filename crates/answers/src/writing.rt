// The lines that tell the answers.
ghost use Rattle.std.specs.Prelude.{◌≡◌};
ghost use Rattle.answers.specs.Said.{said, line_of, Tells};

use crate::answer::LineAnswer;
use fields::text::Text;

// The most bytes that a line has: a word, a tab, the digits of 64 bytes and a line feed.
const MOST: usize = 137;

impl LineAnswer {
    // The fields of the line, parted by tabs.
    // Kept: pushes are plainer than `write!` into a text: it has no heap and always has room, the hexadecimal digits of a block
    // have no Display of their own, and each `write!` would answer a Result that never fails.
    fn fields(&self) -> Text<MOST>
        ensures { Tells result (said self.now) }
    {
        let mut text = Text::new();
        match self {
            LineAnswer::Done => text.push(b"ok"),
            LineAnswer::Refused(refusal) => {
                text.push(b"refused\t");
                text.push_number(u64::from(u8::from(*refusal)));
            }
            LineAnswer::Shipped(passage) => {
                text.push(b"shipped\t");
                text.push_hex(passage);
            }
            LineAnswer::Closed(size, digest) => {
                text.push(b"closed\t");
                text.push_hex(&digest[0..size.bytes()]);
            }
            LineAnswer::Total(cents, count) => {
                text.push(b"total\t");
                text.push_number(*cents);
                text.push(b"\t");
                text.push_number(u64::from(*count));
            }
        }
        text
    }

    // The line that tells the answer, with its line feed.
    pub fn line(&self) -> Text<MOST>
        ensures { result ≡ line_of (said self.now) }
    {
        let mut text = self.fields();
        text.push(b"\n");
        text
    }
}
