// A line, read.
ghost use Rattle.std.specs.Prelude.{◌≡◌, ok_or};
ghost use Rattle.refusals.specs.declared.refusal.Refusal.TheVariants.{Request};
ghost use Rattle.requests.specs.Requests.{alone_of, pass_of, cancel_of, press_of, open_of, word_of, request_of};

use crate::request::{LineRequest, PressName};
use fields::cuts::cut;
use fields::decimals::number;
use fields::hex::bytes;
use refusals::refusal::Refusal;

// A request of one word.
fn alone(line: &[u8]) -> Option<LineRequest>
    ensures { result ≡ alone_of line.now }
{
    match line {
        b"ship" => Some(LineRequest::Ship),
        b"close" => Some(LineRequest::Close),
        b"reopen" => Some(LineRequest::Reopen),
        b"total" => Some(LineRequest::Total),
        _ => None,
    }
}

fn pass(field: &[u8]) -> Option<LineRequest>
    ensures { result ≡ pass_of field.now }
{
    bytes(field).map(LineRequest::Pass)
}

fn cancel(field: &[u8]) -> Option<LineRequest>
    ensures { result ≡ cancel_of field.now }
{
    let serial = u32::try_from(number(field)?).ok()?;
    Some(LineRequest::Cancel(serial))
}

// The press that a word names.
impl TryFrom<&[u8]> for PressName {
    type Error = Refusal;

    ghost try_from_gives = { λ word r. r ≡ ok_or (press_of word.now) Request };

    fn try_from(word: &[u8]) -> Result<Self, Refusal> {
        match word {
            b"jh" => Ok(PressName::Jh),
            b"drill" => Ok(PressName::Drill),
            _ => Err(Refusal::Request),
        }
    }
}

fn open(rest: &[u8]) -> Option<LineRequest>
    ensures { result ≡ open_of rest.now }
{
    let (word, size) = cut(rest, b'\t')?;
    let press = PressName::try_from(word).ok()?;
    let bits = number(size)?;
    Some(LineRequest::Open(press, bits))
}

// A request of a word and what follows its tab.
fn by_word(word: &[u8], rest: &[u8]) -> Option<LineRequest>
    ensures { result ≡ word_of word.now rest.now }
{
    match word {
        b"open" => open(rest),
        b"pass" => pass(rest),
        b"cancel" => cancel(rest),
        _ => None,
    }
}

// The request on a line, without its line feed; refuses a line that is no request.
impl TryFrom<&[u8]> for LineRequest {
    type Error = Refusal;

    ghost try_from_gives = { λ line r. r ≡ ok_or (request_of line.now) Request };

    fn try_from(line: &[u8]) -> Result<Self, Refusal> {
        let request = match cut(line, b'\t') {
            Some((word, rest)) => by_word(word, rest),
            None => alone(line),
        };
        request.ok_or(Refusal::Request)
    }
}
