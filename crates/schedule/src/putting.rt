// Putting the rates of consecutive slots into the blocks of their months, in the steps of `put_run`.
ghost use Rattle.std.specs.Prelude.{◌≡◌, ◌+◌, ◌^◌, ◌≤◌, ◌<◌, length, None};
ghost use Rattle.rules.specs.Calendar.{month_count};
ghost use Rattle.rules.specs.Store.{block_length, store_length};
ghost use Rattle.pool.specs.Blocks.{find_of};
ghost use Rattle.schedule.specs.Stored.{open_by, open_month, laid, put_piece, piece_in, put_run};
ghost use Rattle.schedule.specs.Rates.{stored_of, piece_of, can_put_count, InStore};

use crate::layout::SLOT_COUNT;
use pool::{Pool, Taken};
use rules::{BLOCK_LENGTH, NO_RATE, STORE_LENGTH};

// A store of 01's length, which `put_run` alone asks for.
type Store = [u8; STORE_LENGTH];

// Rates of consecutive slots of one month, from its slot `from` on. A month's block has room for them.
#[derive(Clone, Copy)]
struct Piece<'a> {
    month: u16,
    from: usize,
    rates: &'a [u8],
    ghost fits: { 0 < length rates.now → from + length rates.now ≤ block_length },
}

// 'A block newly taken is filled with 255 first'.
#[tactic(auto, using(crate::proofs::PutLaws::taken_below))]
fn take_block(pool: Pool, month: u16, store: &mut Store) -> Taken
    requires { find_of pool month ≡ None }
    ensures { (stored_of result.pool store.new ≡ open_by None month (stored_of pool store.old)) × (result.place ≡ find_of result.pool month) }
{
    let taken = pool.take(month);
    if let Some(b) = taken.place {
        let at = b * BLOCK_LENGTH;
        let end = at + BLOCK_LENGTH;
        store[at..end].fill(NO_RATE);
    }
    taken
}

// The month has its own block, or a free one: it is looked for once.
#[tactic(auto, unfolding(crate::specs::Stored::open_month))]
fn open_month(pool: Pool, month: u16, store: &mut Store) -> Taken
    ensures { (stored_of result.pool store.new ≡ open_month month (stored_of pool store.old)) × (result.place ≡ find_of result.pool month) }
{
    let place = pool.find(month);
    match place {
        Some(_) => Taken { pool, place },
        None => take_block(pool, month, store),
    }
}

// 'Byte i is the rate of its slot i': the rates of the block's slots from `from` on, each its own byte.
fn lay_piece(block: Option<usize>, piece: Piece, store: &mut Store)
    requires { (0 < length piece.rates.now) × InStore block }
    ensures { store.new ≡ laid block piece.entry.from piece.entry.rates.now store.old }
{
    if let Some(b) = block {
        digits::put(store, b * BLOCK_LENGTH + piece.from, piece.rates);
    }
}

// 'Slots below floor are passed over'; a piece with no rates takes no block.
#[tactic(auto, using(crate::proofs::PutLaws::piece_steps))]
fn put_piece(pool: Pool, floor: u16, piece: Piece, store: &mut Store) -> Pool
    ensures { stored_of result store.new ≡ put_piece floor (piece_of piece.entry.month piece.entry.from piece.entry.rates.now) (stored_of pool store.old) }
{
    let lowest = floor;
    if (lowest <= piece.month) & (0 < piece.rates.len()) {
        let opened = open_month(pool, piece.month, store);
        lay_piece(opened.place, piece, store);
        opened.pool
    } else {
        pool
    }
}

// The part of the rates that lies in the month.
#[tactic(auto, using(crate::proofs::PutLaws::piece_is, crate::proofs::PutLaws::piece_fits, crate::proofs::PutLaws::piece_none))]
fn piece_in(month: u16, slot: u32, rates: &[u8]) -> Piece<'_>
    requires { month ≤ month_count + 1 }
    ensures { piece_of result.month result.from result.rates.now ≡ piece_in month slot rates.now }
{
    let start = slot as usize;
    let first = calendar::first_slot(month) as usize;
    let low = start.max(first);
    let high = (start + rates.len()).min(calendar::first_slot(month + 1) as usize);
    let part = if low < high {
        &rates[low - start..high - start]
    } else {
        &[]
    };
    Piece {
        month,
        from: low - first,
        rates: part,
    }
}

// Whether so many rates from a slot on can be put.
#[tactic(auto, using(crate::proofs::RateLaws::month_most))]
fn can_put(slot: u32, count: usize) -> bool
    requires { count < 2 ^ 63 }
    ensures { result ≡ can_put_count slot count store_length }
{
    let end = slot as usize + count;
    let month = calendar::month_of_slot(slot);
    (end <= SLOT_COUNT) & (end <= calendar::first_slot(month + 2) as usize)
}

// Puts the rates of consecutive slots, from a slot on, into the blocks of their months; what cannot be put changes nothing.
// Five parameters: a struct of some is no plainer: a unit has pool and floor, a file slot and rates, and C the store.
#[tactic(auto, using(crate::proofs::PutLaws::run_steps))]
pub fn put_run(pool: Pool, floor: u16, slot: u32, rates: &[u8], store: &mut [u8]) -> Pool
    ensures { (result ≡ (put_run floor slot rates.now (stored_of pool store.old)).pool) × (store.new ≡ (put_run floor slot rates.now (stored_of pool store.old)).store) }
{
    let Some(store) = store.as_mut_array() else {
        return pool;
    };
    if !can_put(slot, rates.len()) {
        return pool;
    }
    let month = calendar::month_of_slot(slot);
    let first = put_piece(pool, floor, piece_in(month, slot, rates), store);
    put_piece(first, floor, piece_in(month + 1, slot, rates), store)
}
