// Hexadecimal text of any length.
use anyhow::Context;
use fields::hex::bytes;
use std::alloc::Global;

// The bytes that a text spells, two digits to a byte, `-` for none; refuses any other text.
pub fn bytes_of(heap: Global, text: &str) -> anyhow::Result<Vec<u8>> {
    let mut all = Vec::new(heap);
    if text == "-" {
        return Ok(all);
    }
    for digits in text.as_bytes().chunks(2) {
        let [b] = bytes::<1>(digits).context("not hexadecimal")?;
        all.push(b)?;
    }
    Ok(all)
}
