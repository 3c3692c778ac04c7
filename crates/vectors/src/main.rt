// Compares our code with values from outside: prints how many of each group are equal, and each line that differs.
#![tactic(auto)]

mod constants;
mod digests;
mod hex;
mod tally;
mod values;

use digests::Digest;
use values::compare;

fn run(rt: &HostRuntime) -> anyhow::Result<()> {
    compare(
        rt,
        "round-constants.txt",
        "round constants of the JH report",
        constants::agrees,
    )?;
    compare(
        rt,
        "sliced-constants.txt",
        "round constants of the sliced form, words",
        constants::agrees_sliced,
    )?;
    compare(
        rt,
        "published-digests.txt",
        "published digests, JH-224 to JH-512, both permutations",
        |_, line| Ok(Digest::of_bytes(rt.alloc(), line)?.is_ours()),
    )?;
    compare(
        rt,
        "bit-messages.txt",
        "digests of messages of any bit count, JH-224 to JH-512, both permutations",
        |_, line| Ok(Digest::of_bits(rt.alloc(), line)?.is_ours()),
    )
}

fn main(rt: HostRuntime) -> anyhow::Result<()> {
    run(&rt)
}
