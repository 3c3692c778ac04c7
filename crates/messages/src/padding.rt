// The padding of a message in bytes.
ghost use Rattle.std.specs.Prelude.{◌≡◌, ◌*◌, ◌/◌, ◌%◌, ◌≤◌, length, slice_index};
ghost use Rattle.jh.specs.Ending.{marked, zero_bytes as zero_bytes_of};

// How many zero bytes stand behind the byte with the one bit of a message of `bits` bits.
pub(crate) fn zero_bytes(bits: u64) -> usize
    ensures { result ≡ zero_bytes_of bits }
{
    if bits % 512 == 0 {
        47
    } else {
        111 - (bits / 8 % 64) as usize
    }
}

// The bits of the message's last byte that count, the one bit behind them, and zeros.
pub(crate) fn last_byte(bytes: &[u8], bits: u64) -> u8
    requires { bits ≤ 8 * length bytes.now }
    ensures { result ≡ marked (bits % 8) (slice_index bytes.now (bits / 8)) }
{
    let kept = bits % 8;
    if kept == 0 {
        return 0x80;
    }
    let byte = bytes[(bits / 8) as usize];
    (byte & !(0xff >> kept)) | (0x80 >> kept)
}
