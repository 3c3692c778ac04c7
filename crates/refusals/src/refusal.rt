// Why a call is refused, or a line of a text; each has its number.
#[derive(Clone, Copy, PartialEq, Eq, Debug)]
pub enum Refusal {
    // The digest size is none of 224, 256, 384, 512.
    Size = 1,
    // The bytes given, with those fed before, pass 2^40.
    Bytes = 2,
    // The bit count exceeds 8 times the message's bytes.
    Bits = 3,
    // The buffer is shorter than what the call writes.
    Buffer = 4,
    // The passage is not 64 bytes long.
    Length = 5,
    // The window is full.
    Full = 6,
    // 1,000,000 passages stand.
    Standing = 7,
    // The serial is not above that of the last standing passage, or not above 0 where none stands.
    Serial = 8,
    // The class, the version or the two zero bytes are not of the form.
    Form = 9,
    // Charged plus discount is not the full price.
    Price = 10,
    // The serial to cancel is at most the last one shipped.
    Shipped = 11,
    // No passage in the window has the serial to cancel.
    Unknown = 12,
    // There is nothing to ship.
    Empty = 13,
    // A line of a saved text is missing, left over, without its line feed, or not of its form.
    Line = 14,
    // A line of a saved text is of its form, but what it says is that of no valid roll.
    Values = 15,
    // The call program got a line that it cannot read, or that the state of the roll does not allow.
    Request = 16,
}
