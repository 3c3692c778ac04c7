// The four digest sizes.
#[derive(Clone, Copy, PartialEq, Eq, Debug)]
pub enum DigestSize {
    D224 = 224,
    D256 = 256,
    D384 = 384,
    D512 = 512,
}
