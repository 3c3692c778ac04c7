// Tests of the public calls.
#![tactic(auto)]

#[cfg(test)]
mod digests;
