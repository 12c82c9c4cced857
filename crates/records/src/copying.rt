// The rates of a body's records, copied end to end.
ghost use Rattle.std.specs.Prelude.{◌≡◌, length};
ghost use Rattle.rules.specs.Body.{count_of};
ghost use Rattle.digits.specs.Placed.{placed};
ghost use Rattle.form.specs.Walk.{records_from};
ghost use Rattle.about_files.specs.Writing.{end_to_end};
ghost use Rattle.records.specs.Standing.{RatesRoom};

use layout::Records;
use rules::Format;

// The rates of the records that stand in `s`, from the buffer's first byte on.
pub(crate) fn put_rates(format: Format, s: &[u8], out: &mut [u8])
    requires { RatesRoom format s.now (length out.old) }
    ensures { out.new ≡ placed out.old 0 (end_to_end (records_from format (count_of format) s.now)) }
{
    let mut place = 0;
    for parts in Records::new(format, layout::record_count(format), s) {
        digits::put(out, place, parts.rates);
        place += parts.rates.len();
    }
}
