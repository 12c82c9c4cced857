// A month's bytes in the stored form's order, and back (02, §2). One is the other's inverse: turned and put back, the bytes are what they were.
#![tactic(auto)]

ghost use Rattle.std.specs.Prelude.{◌≡◌, ◌/◌, ◌≤◌, ◌<◌, length};
ghost use Rattle.rules.specs.Turned.{rearranged};
ghost use Rattle.turned.specs.Rows.{Rows, is_month, turned_into, turned_back_into, stepped};

const SLOTS_OF_DAY: usize = rules::SLOTS_OF_DAY as usize;

const MOST_DAYS: usize = rules::LONGEST_MONTH as usize;

// Whether two slices have the length of one month's bytes.
fn is_month(from: usize, to: usize) -> bool
    ensures { result ≡ is_month from to }
{
    (from == to)
        & (from % SLOTS_OF_DAY == 0)
        & (SLOTS_OF_DAY <= from)
        & (from <= MOST_DAYS * SLOTS_OF_DAY)
}

// The place from which the next byte comes: one row on, or at the top of the next column.
fn step(place: usize, row: usize, n: usize) -> usize
    requires { (place < n) × (row ≤ 1488) × (n ≤ 1488) }
    ensures { result ≡ stepped place row n }
{
    let next = place + row;
    if next < n { next } else { next - (n - 1) }
}

// Reads rows of `row` bytes column by column.
fn rearrange(from: &[u8], to: &mut [u8], row: usize)
    requires { Rows (length from.now) (length to.old) row }
    ensures { to.new ≡ rearranged (length from.now / row) row from.now }
{
    let mut place = 0;
    for x in to.iter_mut() {
        *x = from[place];
        place = step(place, row, from.len());
    }
}

// Puts a month's bytes into `to` in the stored form's order; slices that are not both 48 bytes for each of 1 to 31 days stay.
pub fn turn(from: &[u8], to: &mut [u8])
    ensures { to.new ≡ turned_into from.now to.old }
{
    if is_month(from.len(), to.len()) {
        rearrange(from, to, SLOTS_OF_DAY);
    }
}

// Puts bytes of the stored form's order into `to` as a month's; slices that are not both 48 bytes for each of 1 to 31 days stay.
pub fn turn_back(from: &[u8], to: &mut [u8])
    ensures { to.new ≡ turned_back_into from.now to.old }
{
    if is_month(from.len(), to.len()) {
        rearrange(from, to, from.len() / SLOTS_OF_DAY);
    }
}
