// What was shipped: how many passages, the serial of the last one, and their charged cents.
ghost use Rattle.std.specs.Prelude.{◌≡◌, ◌+◌, ◌*◌, ◌<◌, ◌≤◌};

use passages::passage::Passage;

#[derive(Clone, Copy)]
pub(crate) struct Shipped {
    pub(crate) count: u32,
    // The serial of the last one, or 0.
    pub(crate) last: u32,
    pub(crate) cents: u64,
    // Serials rise from 1 on.
    ghost serials: { count ≤ last },
    // Nothing shipped leaves no cents and no serial.
    ghost paid: { cents ≤ count * 4294967295 },
    ghost fresh: { last ≤ count * 4294967295 },
    // A serial has four bytes.
    ghost high: { last ≤ 4294967295 },
}

impl Shipped {
    // Nothing was shipped yet.
    pub(crate) fn none() -> Shipped
        ensures count { result.count ≡ 0 }
        ensures last { result.last ≡ 0 }
        ensures cents { result.cents ≡ 0 }
    {
        Shipped {
            count: 0,
            last: 0,
            cents: 0,
        }
    }

    // One passage more, with a serial above the last one.
    pub(crate) fn take_one(&mut self, passage: &Passage)
        requires room { self.old.count < 1000000 }
        requires risen { self.old.last < passage.now.serial }
        ensures count { self.new.count ≡ self.old.count + 1 }
        ensures last { self.new.last ≡ passage.now.serial }
        ensures cents { self.new.cents ≡ self.old.cents + passage.now.charged }
    {
        self.count += 1;
        self.last = passage.serial;
        self.cents += u64::from(passage.charged);
    }
}
