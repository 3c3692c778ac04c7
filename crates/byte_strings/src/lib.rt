// Byte strings, and the exclusive or of one into another.
#![tactic(auto)]

ghost use Rattle.std.specs.Prelude.{◌≡◌};
ghost use Rattle.byte_strings.specs.Bytes.{xored};

// Exclusive-ors `mask` into the front of `bytes`, as far as both go.
pub fn xor_into(bytes: &mut [u8], mask: &[u8])
    ensures { bytes.new ≡ xored bytes.old mask.now }
{
    // Kept: by place, since the proof doesn't close over `bytes.iter_mut().zip(mask)`, after which it knows only how long `bytes` is.
    let both = bytes.len().min(mask.len());
    for (i, m) in mask[..both].iter().enumerate() {
        bytes[i] ^= m;
    }
}
