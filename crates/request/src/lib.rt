// The request (01, Beside the unit): 84 bytes that ask for a schedule, from plant ID, MAC address and segment.
#![tactic(auto)]

ghost use Rattle.std.specs.Prelude.{◌≡◌, true, ◌++◌, length, drop};
ghost use Rattle.rules.specs.Digits.{all_digits, to_ascii};
ghost use Rattle.rules.specs.Request.{request, request_bytes};
ghost use Rattle.rules.specs.Writer.{written_of, buffer_after};
ghost use Rattle.request.specs.Parts.{Parts};

use digits::put;
use rules::Cause;

// '84 bytes power_plant_id=ID&mac_address=MAC&schedule_kbn=segment'.
const PLANT_PARAMETER: [u8; 15] = *b"power_plant_id=";

const MAC_PARAMETER: [u8; 13] = *b"&mac_address=";

const SEGMENT_PARAMETER: [u8; 14] = *b"&schedule_kbn=";

const ID_LENGTH: usize = 26;

// Where each value starts, after its parameter's name, and where it ends: 26 digits, 12 and 4 bytes.
const PLANT: usize = 15;

const PLANT_END: usize = PLANT + ID_LENGTH;

const MAC: usize = PLANT_END + 13;

const MAC_END: usize = MAC + 12;

const SEGMENT: usize = MAC_END + 14;

const REQUEST_LENGTH: usize = SEGMENT + 4;

// The digits of a plant ID in ASCII. Copied and then changed in place: of bytes written through a `zip` a proof knows nothing.
fn to_ascii(id: &[u8]) -> [u8; ID_LENGTH]
    requires { (length id.now ≡ 26) × (all_digits id.now ≡ true) }
    ensures { result ≡ to_ascii id.now }
{
    let mut ascii = [0u8; ID_LENGTH];
    ascii.copy_from_slice(id);
    for x in ascii.iter_mut() {
        *x += b'0';
    }
    ascii
}

// Writes a request of checked values into a buffer that has room for it.
fn fill(id: &[u8], mac: &[u8], segment: &[u8], out: &mut [u8])
    requires { Parts id.now mac.now segment.now out.old }
    ensures { out.new ≡ request_bytes id.now mac.now segment.now ++ drop 84 out.old }
{
    put(out, 0, &PLANT_PARAMETER);
    put(out, PLANT, &to_ascii(id));
    put(out, PLANT_END, &MAC_PARAMETER);
    put(out, MAC, mac);
    put(out, MAC_END, &SEGMENT_PARAMETER);
    put(out, SEGMENT, segment);
}

// Writes a request and says how long it is, or refuses with cause 1, 2, 7 or 15 and writes nothing.
#[tactic(auto, unfolding(rules::specs::Request::request), using(crate::proofs::RequestLaws::parts, crate::proofs::RequestLaws::request_long))]
pub fn request(id: &[u8], mac: &[u8], segment: &[u8], out: &mut [u8]) -> Result<usize, Cause>
    ensures answer { result ≡ written_of (request id.now mac.now segment.now (length out.old)) }
    ensures buffer { out.new ≡ buffer_after (request id.now mac.now segment.now (length out.old)) out.old }
{
    if !plant::is_plant_id(id) {
        return Err(Cause::PlantId);
    }
    if !plant::is_mac_address(mac) {
        return Err(Cause::Setting);
    }
    if !name::is_segment(segment) {
        return Err(Cause::Name);
    }
    let length = REQUEST_LENGTH;
    if out.len() < length {
        return Err(Cause::Buffer);
    }
    fill(id, mac, segment, out);
    Ok(REQUEST_LENGTH)
}
