// Where a caller stands.
use refusals::size::DigestSize;
use replay::roll::Roll;

// A roll that was opened, with its digest size.
#[derive(Drop)]
pub struct SizedRoll<P> {
    pub size: DigestSize,
    pub roll: Roll<P>,
}

// No roll yet, with the two presses; or the roll that was opened over one of them.
#[derive(Drop)]
pub enum Session<J, D> {
    Unopened(J, D),
    Jh(SizedRoll<J>),
    Drill(SizedRoll<D>),
}
