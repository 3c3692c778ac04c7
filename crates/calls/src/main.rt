// The call program: requests from standard input, answers to standard output.
#![tactic(auto)]

use drill_press::Drill;
use jh_press::JhPress;
use sliced::Sliced;
use std::io;
use std::io::{Cursor, Read, Write};
use transcript::{MOST_READ, transcribe};

fn main(rt: HostRuntime) -> anyhow::Result<()> {
    let mut input = Cursor::new([0; MOST_READ]);
    io::copy(&mut rt.stdin().take(MOST_READ as u64), &mut input)?;
    let read = MOST_READ.min(input.position() as usize);
    let mut out = Vec::new(rt.alloc());
    transcribe(
        JhPress::new(Sliced),
        Drill,
        &input.get_ref()[..read],
        &mut out,
    )?;
    rt.stdout().write_all(out.as_slice())?;
    Ok(())
}
