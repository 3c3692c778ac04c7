// A message that is fed in parts.
ghost use Rattle.std.specs.Prelude.{◌≡◌};

use jh_press::JhPress;
use messages::feeder::Feeder;
use refusals::size::DigestSize;

// A feeder over the JH press.
// Kept: feeding and finishing are to be methods on `&mut self`, and their contracts here name JH. The methods of `Feeder`, which holds for any
// press, cannot, and as another crate's type it takes no methods here; so this type of our own hands on each call.
#[derive(Drop)]
pub struct JhFeeder<P> {
    pub(crate) feeder: Feeder<JhPress<P>>,
}

impl<P> JhFeeder<P> {
    // The size of the digests.
    pub fn size(&self) -> DigestSize
        ensures { result ≡ self.now.feeder.size }
    {
        self.feeder.size()
    }
}
