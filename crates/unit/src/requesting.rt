// The request of a unit: from its own plant ID and MAC address.
ghost use Rattle.std.specs.Prelude.{◌≡◌, length};
ghost use Rattle.rules.specs.Writer.{written_of, buffer_after};
ghost use Rattle.unit.specs.Request.{request_of};
ghost use Rattle.unit.specs.Asked.{request_asked};

use crate::{Done, Unit};
use rules::Cause;

impl Unit {
    #[tactic(auto, unfolding(crate::specs::Request::request_of))]
    fn request_answer(self, segment: &[u8], out: &mut [u8]) -> Result<usize, Cause>
        ensures answer { result ≡ written_of (request_of self segment.now (length out.old)) }
        ensures buffer { out.new ≡ buffer_after (request_of self segment.now (length out.old)) out.old }
    {
        if !self.sound() {
            return Err(Cause::Unsound);
        }
        request::request(&self.plant.id, &self.plant.mac, segment, out)
    }

    // Writes the request for a segment into the buffer, or refuses with cause 4, 7 or 15 and writes nothing.
    pub fn request(self, segment: &[u8], out: &mut [u8]) -> Done<usize>
        ensures answer { result ≡ request_asked self segment.now (length out.old) }
        ensures buffer { out.new ≡ buffer_after (request_of self segment.now (length out.old)) out.old }
    {
        self.answering(self.request_answer(segment, out))
    }
}
