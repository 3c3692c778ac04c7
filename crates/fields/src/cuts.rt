// A text cut at a byte.
ghost use Rattle.std.specs.Prelude.{◌≡◌, Some, None, MatchOption};
ghost use Rattle.fields.specs.Cuts.{cut_at};

// What stands before the first `b` and what stands after it; none where there is no `b`.
pub fn cut<'a>(s: &'a [u8], b: u8) -> Option<(&'a [u8], &'a [u8])>
    ensures { MatchOption result (cut_at b s.now ≡ None) (λ p. cut_at b s.now ≡ Some (p.0.now, p.1.now)) }
{
    let n = s.iter().position(|x| *x == b)?;
    Some((&s[..n], &s[n + 1..]))
}
