// A roll is open or closed: two types, so that a call that its state does not allow does not compile.
use crate::seal::Seal;
use roll_contents::contents::RollContents;
use std::marker::Model;

// An open roll: the running seal over its press, and the contents.
#[derive(Drop)]
pub struct OpenRoll<P> {
    pub(crate) seal: Seal<P>,
    pub(crate) contents: RollContents,
}

impl<P> Model for OpenRoll<P> {
    ghost use Rattle.daybook.specs.States.{State};
    ghost use Rattle.roll_contents.specs.Contents.{contents_of};

    ghost Value = { State P };

    ghost view = { λ r. record { press = r.seal.press; seal = r.seal.chain; contents = contents_of r.contents } };
}

// A closed roll: its seal is stepped with the ending block.
// Kept: of the same fields as an open one and with the same view, since a moved type for each state is what refuses wrong calls.
#[derive(Drop)]
pub struct ClosedRoll<P> {
    pub(crate) seal: Seal<P>,
    pub(crate) contents: RollContents,
}

impl<P> Model for ClosedRoll<P> {
    ghost use Rattle.daybook.specs.States.{State};
    ghost use Rattle.roll_contents.specs.Contents.{contents_of};

    ghost Value = { State P };

    ghost view = { λ r. record { press = r.seal.press; seal = r.seal.chain; contents = contents_of r.contents } };
}
