// Worked examples, computed from the definitions: one table, proved as one theorem.
#![tactic(auto)]

ghost use Rattle.transcript.specs.Output.{Added};
ghost use Rattle.examples.specs.Rolls.{drill_answers};
ghost use Rattle.examples.specs.Examples.{WorkedExamples};

use drill_press::Drill;
use press::Press;
use std::alloc::AllocError;
use transcript::transcribe;

// Each row of the table in specs/Examples.antt holds.
pub fn worked_examples()
    ensures { WorkedExamples }
{}

// Has the function that the call program runs answer five lines on a drill roll of size 512: their five answers are added to `out`,
// whatever the JH press is. It fails only where `out` has no room for them, and leaves it as it is.
pub fn drill_case<J: Press + Drop>(jh: J, out: &mut Vec<u8>) -> Result<(), AllocError>
    ensures { Added result out.old out.new drill_answers }
{
    let lines = b"open\tdrill\t512\ncancel\t7\nclose\nreopen\ntotal\n";
    transcribe(jh, Drill, lines, out)
}
