// How long the runs of bits are that `Word::exchange` moves.
#[derive(Debug, Clone, Copy, PartialEq, Eq)]
pub enum Width {
    W1,
    W2,
    W4,
    W8,
    W16,
    W32,
    W64,
}
