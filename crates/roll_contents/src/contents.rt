// What a roll holds besides its press and its seal: the digest size, the window, and what was shipped.
ghost use Rattle.std.specs.Prelude.{◌≡◌, ◌+◌, ◌*◌, ◌≤◌, true, length};
ghost use Rattle.passages.specs.Rows.{in_order};
ghost use Rattle.window.specs.Listed.{listed};

use crate::shipped::Shipped;
use refusals::size::DigestSize;
use window::window::Window;

// Kept: seen by `contents_of` and not by a model: that of a Copy type gives its fields back, and this view leaves out the window's
// places behind its count.
#[derive(Clone, Copy)]
pub struct RollContents {
    pub(crate) size: DigestSize,
    pub(crate) window: Window,
    pub(crate) shipped: Shipped,
    // At most 1,000,000 passages stand.
    ghost standing: { shipped.count + length (listed window) ≤ 1000000 },
    // Each passage of the window may stand after the one before it, and the first after the last one shipped.
    ghost order: { in_order shipped.last (listed window) ≡ true },
}

// What all standing passages come to: their charged cents and their count.
#[derive(Clone, Copy, PartialEq, Eq, Debug)]
pub struct Total {
    pub cents: u64,
    pub count: u32,
}
