// What the lines of a saved text say.
ghost use Rattle.std.specs.Prelude.{◌≡◌, ◌≤◌, true, false, IfOk, Ok, Err, MatchOption, MatchResult};
ghost use Rattle.refusals.specs.Refusals.{number as number_of};
ghost use Rattle.refusals.specs.Sizes.{is_size, bits_in};
ghost use Rattle.text_laws.specs.Values.{counts_agree, numbers_of, chain_of, passage_of};
ghost use Rattle.saved_text.specs.Views.{view, read_numbers, head_numbers, Heads};
ghost use Rattle.passages.specs.Coding.{encoded};
ghost use Rattle.passages.specs.Fields.{serial_of};

use crate::line::{Line, LineFault};
use fields::faults::{bytes_at, number_at};
use passages::passage::Passage;
use press::{Block, Chain};
use refusals::refusal::Refusal;
use refusals::size::DigestSize;
use window::limits;

// The most passages in a window, and on a roll, as numbers of a line.
const MOST_WAITING: u64 = limits::MOST_WAITING as u64;

const MOST_STANDING: u64 = limits::MOST_STANDING as u64;

// The highest serial, and the highest price of a passage.
const HIGHEST: u64 = u32::MAX as u64;

// The numbers of line 1, as they are read.
// Kept: beside the fields of `Line::Roll` and the numbers of `Head`: one type over bytes, numbers and narrow numbers would say less than three.
#[derive(Clone, Copy, Debug, PartialEq, Eq)]
pub struct LineNumbers {
    pub size: u64,
    pub shipped: u64,
    pub last: u64,
    pub cents: u64,
    pub window: u64,
}

// The numbers of a valid line 1.
#[derive(Clone, Copy, Debug, PartialEq, Eq)]
pub struct Head {
    pub size: DigestSize,
    pub shipped: u32,
    pub last: u32,
    pub cents: u64,
    pub window: u32,
}

// The digest size of n bits; none for any but the four.
fn digest_size(n: u64) -> Option<DigestSize>
    ensures { MatchOption result (is_size n ≡ false) (λ s. bits_in s ≡ n) }
{
    let bits = u32::try_from(n).ok()?;
    DigestSize::try_from(bits).ok()
}

impl LineNumbers {
    fn counts_agree(&self) -> bool
        ensures { result ≡ counts_agree (read_numbers self.now) }
    {
        self.window <= MOST_WAITING
            && self.shipped.saturating_add(self.window) <= MOST_STANDING
            && self.last <= HIGHEST
            && self.shipped <= self.last
            && (self.shipped != 0 || (self.last == 0 && self.cents == 0))
            && self.cents <= self.shipped * HIGHEST
    }
}

// The same numbers, where line 1 is valid.
impl TryFrom<&LineNumbers> for Head {
    type Error = Refusal;

    ghost try_from_gives = { λ numbers head. Heads numbers.now head };

    fn try_from(numbers: &LineNumbers) -> Result<Self, Refusal> {
        let size = digest_size(numbers.size).ok_or(Refusal::Values)?;
        if !numbers.counts_agree() {
            return Err(Refusal::Values);
        }
        Ok(Head {
            size,
            shipped: numbers.shipped as u32,
            last: numbers.last as u32,
            cents: numbers.cents,
            window: numbers.window as u32,
        })
    }
}

// What line 1 says; refuses one that is not of its form, then one whose numbers are not valid.
pub fn head_of(line: Line, at: u32) -> Result<Head, LineFault>
    ensures few { IfOk result (λ h. h.window ≤ 32) }
    ensures value { MatchResult result (λ h. numbers_of at (view line.entry) ≡ Ok (head_numbers h)) (λ e. numbers_of at (view line.entry) ≡ Err (number_of e.refusal, e.line)) }
{
    match line {
        Line::Roll {
            size,
            shipped,
            last,
            cents,
            window,
        } => {
            let numbers = LineNumbers {
                size: number_at(size, at)?,
                shipped: number_at(shipped, at)?,
                last: number_at(last, at)?,
                cents: number_at(cents, at)?,
                window: number_at(window, at)?,
            };
            Head::try_from(&numbers).map_err(|refusal| LineFault { refusal, line: at })
        }
        Line::Chain(_) | Line::Pass(_) => Err(LineFault::malformed(at)),
    }
}

// What line 2 says; refuses one that is not of its form.
pub fn chain_of(line: Line, at: u32) -> Result<Chain, LineFault>
    ensures { MatchResult result (λ x. chain_of at (view line.entry) ≡ Ok x) (λ e. chain_of at (view line.entry) ≡ Err (number_of e.refusal, e.line)) }
{
    match line {
        Line::Chain(digits) => Ok(bytes_at(digits, at)?),
        _ => Err(LineFault::malformed(at)),
    }
}

// What a later line says; refuses one that is not of its form, then one whose passage may not stand after one with the
// serial `before`.
pub fn passage_of(line: Line, at: u32, before: u32) -> Result<Passage, LineFault>
    ensures { MatchResult result (λ p. (passage_of at before (view line.entry) ≡ Ok (encoded p)) × (p.serial ≡ serial_of (encoded p))) (λ e. passage_of at before (view line.entry) ≡ Err (number_of e.refusal, e.line)) }
{
    match line {
        Line::Pass(digits) => {
            let block: Block = bytes_at(digits, at)?;
            Passage::decode_after(before, &block).map_err(|_| LineFault::invalid(at))
        }
        _ => Err(LineFault::malformed(at)),
    }
}
