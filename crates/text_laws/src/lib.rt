// The laws of saved texts, as contracts that the check asks for.
#![tactic(auto)]

ghost use Rattle.text_laws.specs.Laws.{SavedReads, ReadSaves, RefusedStands};

// A text is accepted exactly if it is the text of a valid roll, and reads as that roll.
pub fn round_trips()
    ensures forth { SavedReads }
    ensures back { ReadSaves }
{}

// A text that is refused is that of no valid roll; the refusal depends on the lines up to it alone, and those before it are
// as in the text of a valid roll.
pub fn refusals_stand()
    ensures { RefusedStands }
{}
