// JH as its public report defines it, in specs/, and what is proved about the definitions alone.
#![tactic(auto)]

ghost use Rattle.jh.specs.Laws.{BoxesUndone, LUndone, PermuteUndone, RoundUndone, E8Undone, C0Root};
ghost use Rattle.jh.specs.Message.{WholeBlocks};

// The S-boxes and L are undone by their inverses, and undo them.
pub fn table_laws()
    ensures boxes { BoxesUndone }
    ensures linear { LUndone }
{}

// P_d and R_d are undone by their inverses, and undo them, at every dimension d from 2 on.
pub fn round_laws()
    ensures permute { PermuteUndone }
    ensures round { RoundUndone }
{}

// E8 is undone by its inverse, and undoes it, on every 128 bytes.
pub fn e8_laws()
    ensures { E8Undone }
{}

// C_0 is the fraction of the square root of 2.
pub fn constant_laws()
    ensures { C0Root }
{}

// Every padded message is a row of whole blocks.
pub fn padding_laws()
    ensures { WholeBlocks }
{}
