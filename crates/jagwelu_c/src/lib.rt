// The static library for C (include/jagwelu.h): each function of jagwelu under its own name, with its clauses. It stands apart since a crate
// is a library, over which theorems are proved, or a static library, and not both.
#![tactic(auto)]

ghost use Rattle.std.specs.Prelude.{◌≡◌, length, None, Some};
ghost use Rattle.rules.specs.ErrorFile.{error_code, code_of};
ghost use Rattle.rules.specs.File.{read_file};
ghost use Rattle.rules.specs.Name.{format_of};
ghost use Rattle.rules.specs.Reading.{reading_of};
ghost use Rattle.rules.specs.Writer.{write_body, written_of, buffer_after};
ghost use Rattle.rules.specs.declared.Kind.{Kind as KindOf};
ghost use Rattle.unit.specs.Calls.{tick_of, lost_of, failure_of, due_of, ceiling_of, command_of, free_of};
ghost use Rattle.taking.specs.Taken.{take_of, store_after_take, response_of, store_after_response};
ghost use Rattle.unit.specs.Request.{request_of};
ghost use Rattle.unit.specs.Values.{installed_unit};
ghost use Rattle.plan.specs.Fields.{fields_of};
ghost use Rattle.c_structs.specs.Held.{settings_in, opened, handed, newly};
ghost use Rattle.c_bodies.specs.Bodies.{locate_by, rates_by};
ghost use Rattle.c_bodies.specs.Places.{places_numbers};
ghost use Rattle.jagwelu.specs.Check.{check_number};
ghost use Rattle.c_answers.specs.Answers.{due_numbers, ceiling_numbers, command_number, blocks_number, written_numbers, file_numbers, error_numbers};

use c_answers::{CeilingAnswer, DueAnswer, ErrorAnswer, FileAnswer, Number, WrittenBytes};
use c_bodies::RecordPlaces;
use c_structs::{Handed, HeldSettings, HeldUnit};

#[unsafe(no_mangle)]
pub extern "C" fn jag_install(id: &[u8], mac: &[u8], settings: HeldSettings) -> Handed
    ensures { result ≡ newly (installed_unit id.now mac.now (settings_in settings)) }
{
    jagwelu::jag_install(id, mac, settings)
}

#[unsafe(no_mangle)]
pub extern "C" fn jag_tick(unit: HeldUnit, second: u64, store: &[u8]) -> Handed
    ensures { result ≡ handed unit (tick_of (opened unit) store.now second) }
{
    jagwelu::jag_tick(unit, second, store)
}

#[unsafe(no_mangle)]
pub extern "C" fn jag_clock_lost(unit: HeldUnit) -> Handed
    ensures { result ≡ handed unit (lost_of (opened unit)) }
{
    jagwelu::jag_clock_lost(unit)
}

#[unsafe(no_mangle)]
pub extern "C" fn jag_take_file(
    unit: HeldUnit,
    name: &[u8],
    body: &[u8],
    store: &mut [u8],
) -> Handed
    ensures answer { result ≡ handed unit (take_of (opened unit) store.old name.now body.now) }
    ensures kept { store.new ≡ store_after_take (opened unit) store.old name.now body.now }
{
    jagwelu::jag_take_file(unit, name, body, store)
}

#[unsafe(no_mangle)]
pub extern "C" fn jag_take_response(
    unit: HeldUnit,
    boundary: &[u8],
    response: &[u8],
    store: &mut [u8],
) -> Handed
    ensures answer { result ≡ handed unit (response_of (opened unit) store.old boundary.now response.now) }
    ensures kept { store.new ≡ store_after_response (opened unit) store.old boundary.now response.now }
{
    jagwelu::jag_take_response(unit, boundary, response, store)
}

#[unsafe(no_mangle)]
pub extern "C" fn jag_update_failed(unit: HeldUnit, status: u64) -> Handed
    ensures { result ≡ handed unit (failure_of (opened unit) KindOf.Update status) }
{
    jagwelu::jag_update_failed(unit, status)
}

#[unsafe(no_mangle)]
pub extern "C" fn jag_fixed_failed(unit: HeldUnit, status: u64) -> Handed
    ensures { result ≡ handed unit (failure_of (opened unit) KindOf.Fixed status) }
{
    jagwelu::jag_fixed_failed(unit, status)
}

#[unsafe(no_mangle)]
pub extern "C" fn jag_due(unit: HeldUnit) -> DueAnswer
    ensures { result ≡ due_numbers (due_of (opened unit)) }
{
    jagwelu::jag_due(unit)
}

#[unsafe(no_mangle)]
pub extern "C" fn jag_ceiling(unit: HeldUnit, slot: u64, store: &[u8]) -> CeilingAnswer
    ensures { result ≡ ceiling_numbers (ceiling_of (opened unit) store.now slot) }
{
    jagwelu::jag_ceiling(unit, slot, store)
}

#[unsafe(no_mangle)]
pub extern "C" fn jag_command(unit: HeldUnit) -> Number
    ensures { result ≡ command_number (command_of (opened unit)) }
{
    jagwelu::jag_command(unit)
}

#[unsafe(no_mangle)]
pub extern "C" fn jag_free_blocks(unit: HeldUnit) -> Number
    ensures { result ≡ blocks_number (free_of (opened unit)) }
{
    jagwelu::jag_free_blocks(unit)
}

#[unsafe(no_mangle)]
pub extern "C" fn jag_check(unit: HeldUnit, store: &[u8]) -> u32
    ensures { result ≡ check_number (opened unit) store.now }
{
    jagwelu::jag_check(unit, store)
}

#[unsafe(no_mangle)]
pub extern "C" fn jag_request(unit: HeldUnit, segment: &[u8], out: &mut [u8]) -> WrittenBytes
    ensures answer { result ≡ written_numbers (written_of (request_of (opened unit) segment.now (length out.old))) }
    ensures buffer { out.new ≡ buffer_after (request_of (opened unit) segment.now (length out.old)) out.old }
{
    jagwelu::jag_request(unit, segment, out)
}

#[unsafe(no_mangle)]
pub extern "C" fn jag_read(name: &[u8], body: &[u8]) -> FileAnswer
    ensures { result ≡ file_numbers (reading_of (read_file None name.now body.now)) }
{
    jagwelu::jag_read(name, body)
}

// For a plant whose ID is given: a file for another is refused with 8.
#[unsafe(no_mangle)]
pub extern "C" fn jag_read_for(plant: &[u8], name: &[u8], body: &[u8]) -> FileAnswer
    ensures { result ≡ file_numbers (reading_of (read_file (Some plant.now) name.now body.now)) }
{
    jagwelu::jag_read_for(plant, name, body)
}

#[unsafe(no_mangle)]
pub extern "C" fn jag_record(format: u32, body: &[u8], index: usize) -> RecordPlaces
    ensures { result ≡ places_numbers (locate_by (format_of format) body.now index) }
{
    jagwelu::jag_record(format, body, index)
}

#[unsafe(no_mangle)]
pub extern "C" fn jag_copy_rates(format: u32, body: &[u8], out: &mut [u8]) -> WrittenBytes
    ensures answer { result ≡ written_numbers (written_of (rates_by (format_of format) body.now (length out.old))) }
    ensures buffer { out.new ≡ buffer_after (rates_by (format_of format) body.now (length out.old)) out.old }
{
    jagwelu::jag_copy_rates(format, body, out)
}

#[unsafe(no_mangle)]
pub extern "C" fn jag_write_body(
    format: u32,
    plant: &[u8],
    schedule: &[u8],
    start: &[u8],
    next: &[u8],
    rates: &[u8],
    flag: u32,
    out: &mut [u8],
) -> WrittenBytes
    ensures answer { result ≡ written_numbers (written_of (write_body (fields_of format plant.now schedule.now start.now next.now rates.now flag) (length out.old))) }
    ensures buffer { out.new ≡ buffer_after (write_body (fields_of format plant.now schedule.now start.now next.now rates.now flag) (length out.old)) out.old }
{
    jagwelu::jag_write_body(format, plant, schedule, start, next, rates, flag, out)
}

#[unsafe(no_mangle)]
pub extern "C" fn jag_error_file(file: &[u8]) -> ErrorAnswer
    ensures { result ≡ error_numbers (code_of (error_code file.now)) file.now }
{
    jagwelu::jag_error_file(file)
}
