// Values from outside, each group in a file: a value to a line, and comments behind '#'.
use crate::tally::Tally;
use std::fs;

// Compares every line of a file, by its place among the lines that are no comments, and prints the count under a title. A line that `agrees` cannot read differs.
pub fn compare<F: Fn(usize, &str) -> anyhow::Result<bool>>(
    rt: &HostRuntime,
    file: &str,
    title: &str,
    agrees: F,
) -> anyhow::Result<()>
    requires { F.IsAlwaysCallable agrees }
{
    let text = fs::read_to_string(rt, file)?;
    let mut tally = Tally::new();
    for (place, line) in text
        .lines()
        .filter(|line| !line.starts_with('#'))
        .enumerate()
    {
        // Places from 255 on count as 255.
        tally.count(rt, agrees(place.min(255), line).unwrap_or(false), line)?;
    }
    println!(rt; "{title}: {tally}")?;
    Ok(())
}
