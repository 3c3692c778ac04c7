// A roll between two requests.
ghost use Rattle.std.specs.Prelude.{◌≡◌, ◌≤◌, true, is_ok, length, take};
ghost use Rattle.text_laws.specs.Saved.{read_text};

use rolls::state::{ClosedRoll, OpenRoll};

// A saved text, that of a valid roll: the first `len` of bytes that are more than any saved text has.
// Kept: bytes and a count, and no `Text`: tried, and a caller's proof then takes no copy of a saved text, since a Copy struct that
// holds a struct with a model is not copied where it is passed by value and used again.
#[derive(Clone, Copy)]
pub struct SavedText {
    pub(crate) bytes: [u8; 4700],
    pub(crate) len: usize,
    ghost wide: { length bytes ≡ 4700 },
    ghost within: { len ≤ 4700 },
    ghost valid: { is_ok (read_text (take len bytes)) ≡ true },
}

impl SavedText {
    ghost use Rattle.replay.specs.Stands.{text_in};

    // The bytes of the text.
    pub(crate) fn as_slice(&self) -> &[u8]
        ensures { result.now ≡ text_in self.now }
    {
        &self.bytes[..self.len]
    }
}

#[derive(Drop)]
pub enum Roll<P> {
    Open(OpenRoll<P>),
    // Open, right after a save, with the text that it wrote.
    Saved(OpenRoll<P>, SavedText),
    Closed(ClosedRoll<P>),
}
