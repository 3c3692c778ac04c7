// Tests of rolls.
#![tactic(auto)]

#[cfg(test)]
mod calls;
#[cfg(test)]
mod samples;
#[cfg(test)]
mod texts;
