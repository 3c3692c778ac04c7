// The constant tables of JH.

// The S-boxes, by input.
pub(crate) const S0: [u8; 16] = [9, 0, 4, 11, 13, 12, 3, 15, 1, 10, 2, 6, 7, 5, 8, 14];

pub(crate) const S1: [u8; 16] = [3, 12, 6, 13, 5, 7, 1, 9, 15, 2, 0, 4, 11, 10, 14, 8];

// Their inverses, by output.
pub(crate) const S0_INVERSE: [u8; 16] = [1, 8, 10, 6, 2, 13, 11, 12, 14, 0, 9, 3, 5, 4, 15, 7];

pub(crate) const S1_INVERSE: [u8; 16] = [10, 6, 9, 0, 11, 4, 2, 5, 15, 7, 13, 12, 1, 3, 14, 8];

// C_0, the fraction of the square root of 2 in 256 bits, the highest first.
pub(crate) const C0: [u64; 4] = [
    0x6a09e667f3bcc908,
    0xb2fb1366ea957d3e,
    0x3adec17512775099,
    0xda2f590b0667322a,
];
