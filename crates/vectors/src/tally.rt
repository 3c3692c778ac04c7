// Counts of a group of values.
use std::{fmt, io};

// How many values were compared, and how many of them were equal.
#[derive(Drop)]
pub struct Tally {
    compared: u32,
    equal: u32,
}

impl Tally {
    // No value yet.
    pub fn new() -> Self {
        Tally {
            compared: 0,
            equal: 0,
        }
    }

    // One value more; prints its line where it is not equal.
    pub fn count(&mut self, rt: &HostRuntime, equal: bool, line: &str) -> io::Result<()> {
        self.compared = self.compared.saturating_add(1);
        if equal {
            self.equal = self.equal.saturating_add(1);
            return Ok(());
        }
        println!(rt; "differs: {line}")
    }
}

impl fmt::Display for Tally {
    fn fmt<W: fmt::Write>(&self, f: &mut fmt::Formatter<W>) -> fmt::Result {
        let equal = self.equal;
        let compared = self.compared;
        write!(f, "{equal} of {compared} equal")
    }
}
