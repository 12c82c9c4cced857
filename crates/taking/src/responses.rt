// A response of the modem taken (02, §1): the name and the file that it carries are taken, as parts of the caller's bytes.
ghost use Rattle.std.specs.Prelude.{◌≡◌};
ghost use Rattle.taking.specs.Taken.{response_of, store_after_response};

use rules::Cause;
use unit::{Done, Unit};

// A response, by its boundary and its bytes. Unit and store are looked at once, and the response only after them.
#[tactic(auto, unfolding(crate::specs::Ready::ready_of, crate::specs::Taken::outcome_taken, crate::specs::Taken::store_taken, rules::specs::Table::first_of))]
pub fn take_response(unit: Unit, boundary: &[u8], bytes: &[u8], store: &mut [u8]) -> Done<()>
    ensures answer { result ≡ response_of unit store.old boundary.now bytes.now }
    ensures kept { store.new ≡ store_after_response unit store.old boundary.now bytes.now }
{
    match crate::ready::check(unit, store) {
        Err(cause) => unit.refuse(cause),
        Ok(()) => match response::find(boundary, bytes) {
            None => unit.refuse(Cause::Response),
            Some(carried) => crate::take::take_checked(unit, carried.name, carried.file, store),
        },
    }
}
