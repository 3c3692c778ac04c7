// The lines of a saved text, by their fields.
ghost use Rattle.std.specs.Prelude.{◌≡◌, Some, None, MatchResult};
ghost use Rattle.refusals.specs.declared.refusal.Refusal.TheVariants as Refused;
ghost use Rattle.fields.specs.Cuts.{cut_at};
ghost use Rattle.text_laws.specs.Lines.{roll_of, line_of, first_line};
ghost use Rattle.saved_text.specs.Views.{view};

use fields::cuts::cut;
use fields::faults::FieldFault;
use refusals::refusal::Refusal;

// A line of one of the three kinds. It borrows its fields from the text.
#[derive(Clone, Copy, Debug, PartialEq, Eq)]
pub enum Line<'a> {
    Roll {
        size: &'a [u8],
        shipped: &'a [u8],
        last: &'a [u8],
        cents: &'a [u8],
        window: &'a [u8],
    },
    Chain(&'a [u8]),
    Pass(&'a [u8]),
}

// A refusal of a line: why, and which line.
// Kept: a type of its own, as for a field and for a text: each layer answers its own fault, and `?` carries it on.
#[derive(Clone, Copy, PartialEq, Eq, Debug)]
pub struct LineFault {
    pub refusal: Refusal,
    pub line: u32,
}

impl LineFault {
    // That line is missing, without its line feed or not of its form.
    pub fn malformed(line: u32) -> Self
        ensures refusal { result.refusal ≡ Refused.Line }
        ensures line { result.line ≡ line }
    {
        LineFault {
            refusal: Refusal::Line,
            line,
        }
    }

    // What that line says is that of no valid roll.
    pub fn invalid(line: u32) -> Self
        ensures refusal { result.refusal ≡ Refused.Values }
        ensures line { result.line ≡ line }
    {
        LineFault {
            refusal: Refusal::Values,
            line,
        }
    }
}

impl From<FieldFault> for LineFault {
    ghost from_gives = { λ e f. (f.refusal ≡ e.refusal) × (f.line ≡ e.line) };

    fn from(fault: FieldFault) -> LineFault {
        LineFault {
            refusal: fault.refusal,
            line: fault.line,
        }
    }
}

// The field before the next tab, and what follows it; refuses a line with no tab as malformed.
fn field<'a>(rest: &'a [u8], line: u32) -> Result<(&'a [u8], &'a [u8]), FieldFault>
    ensures { MatchResult result (λ p. cut_at 9 rest.now ≡ Some (p.0.now, p.1.now)) (λ e. (cut_at 9 rest.now ≡ None) × (e.refusal ≡ Refused.Line) × (e.line ≡ line)) }
{
    cut(rest, b'\t').ok_or(FieldFault::malformed(line))
}

fn roll_line<'a>(rest: &'a [u8], line: u32) -> Result<Line<'a>, LineFault>
    ensures { MatchResult result (λ l. roll_of rest.now ≡ Some (view l)) (λ e. (roll_of rest.now ≡ None) × (e.refusal ≡ Refused.Line) × (e.line ≡ line)) }
{
    let (size, rest) = field(rest, line)?;
    let (shipped, rest) = field(rest, line)?;
    let (last, rest) = field(rest, line)?;
    let (cents, window) = field(rest, line)?;
    Ok(Line::Roll {
        size,
        shipped,
        last,
        cents,
        window,
    })
}

// The line that bytes with no line feed are.
fn line_of<'a>(bytes: &'a [u8], line: u32) -> Result<Line<'a>, LineFault>
    ensures { MatchResult result (λ l. line_of bytes.now ≡ Some (view l)) (λ e. (line_of bytes.now ≡ None) × (e.refusal ≡ Refused.Line) × (e.line ≡ line)) }
{
    let (word, rest) = field(bytes, line)?;
    match word {
        b"roll" => roll_line(rest, line),
        b"chain" => Ok(Line::Chain(rest)),
        b"pass" => Ok(Line::Pass(rest)),
        _ => Err(LineFault::malformed(line)),
    }
}

// The first line of a text, and the text after it; refuses one that is missing, without its line feed or of no kind.
pub fn next_line<'a>(text: &'a [u8], line: u32) -> Result<(Line<'a>, &'a [u8]), LineFault>
    ensures { MatchResult result (λ p. first_line text.now ≡ Some (view p.0, p.1.now)) (λ e. (first_line text.now ≡ None) × (e.refusal ≡ Refused.Line) × (e.line ≡ line)) }
{
    let (bytes, rest) = cut(text, b'\n').ok_or(LineFault::malformed(line))?;
    Ok((line_of(bytes, line)?, rest))
}
