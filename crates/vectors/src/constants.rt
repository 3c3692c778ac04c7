// The round constants, of the definition and of the sliced form.
use anyhow::Context;
use fields::hex::bytes;
use grouped::round_constant;
use sliced_constants::round_constant as sliced_constant;
use words::{EightWords, Word};

// Whether digits spell elements of four bits, a digit to an element.
fn spell(digits: &[u8], elements: &[u8; 64]) -> bool {
    digits.len() == elements.len()
        && digits.iter().zip(elements).all(|(digit, element)| bytes::<1>(&[b'0', *digit])
            == Some([*element]))
}

// Whether a line is the number of the round at its place, a tab and that round's constant.
pub fn agrees(place: usize, line: &str) -> anyhow::Result<bool> {
    let (number, digits) = line.split_once('\t').context("no tab")?;
    let round = number.parse::<u8>()?;
    Ok(usize::from(round) == place && spell(digits.as_bytes(), &round_constant(round)))
}

// Whether a word has these bytes, the high byte first.
fn has_bytes(word: Word, bytes: &[u8; 16]) -> bool {
    let mut written = [0; 128];
    EightWords([word; 8]).write(&mut written);
    bytes.as_slice() == &written[..16]
}

// Whether a line is the number of a round, `even` or `odd`, and that word of the round's sliced constant; the two words of a round stand one after the other.
pub fn agrees_sliced(place: usize, line: &str) -> anyhow::Result<bool> {
    let mut fields = line.split('\t');
    let round = fields.next().context("no round")?.parse::<u8>()?;
    let parity = fields.next().context("no parity")?;
    let theirs = bytes::<16>(fields.next().context("no word")?.as_bytes()).context(
        "not hexadecimal",
    )?;
    let constant = sliced_constant(usize::from(round));
    let (named, word) = if place % 2 == 0 {
        ("even", constant.even)
    } else {
        ("odd", constant.odd)
    };
    Ok(usize::from(round) == place / 2 && parity == named && has_bytes(word, &theirs))
}
