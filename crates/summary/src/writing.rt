// A summary takes in what is written to it.
ghost use Rattle.std.specs.Prelude.{◌≡◌, ℕ, List, Ok, ◌++◌, length};
ghost use Rattle.summary.specs.Fed.{Fed};

use crate::summary::Summary;
use permutation::Permutation;
use std::io;
use std::io::Write;

impl<P: Permutation + Copy> Write for Summary<P> {
    // Puts the bytes at the end of the message.
    fn write(&mut self, buf: &[u8]) -> io::Result<usize>
        ensures all { result ≡ Ok (length buf.now) }
        ensures fed { (p : P) (m : List ℕ) → Fed P.image p m self.old → Fed P.image p (m ++ buf.now) self.new }
    {
        self.feed(buf);
        Ok(buf.len())
    }

    fn flush(&mut self) -> io::Result<()>
        ensures { (result ≡ Ok tt) × (self.new ≡ self.old) }
    {
        Ok(())
    }
}
