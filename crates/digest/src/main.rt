// Prints the JH digests of standard input: a line `SIZE<tab>hexadecimal digits` for each of the four sizes, or `refused<tab>2` past 2^40 bytes.
#![tactic(auto)]

use messages::whole::MOST_BYTES;
use sliced::Sliced;
use std::io;
use std::io::{Read, Write};
use summary::summary::Summary;

fn main(rt: HostRuntime) -> io::Result<()> {
    let mut summary = Summary::new(Sliced);
    // One byte past the most is enough to be refused.
    let mut input = rt.stdin().take(MOST_BYTES + 1);
    io::copy(&mut input, &mut summary)?;
    let report = summary.report();
    rt.stdout().write_all(report.as_slice())
}
