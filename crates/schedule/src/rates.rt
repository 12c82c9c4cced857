// A byte as a rate, and the rate of a slot: the byte of its month's block.
ghost use Rattle.std.specs.Prelude.{◌≡◌, get_or};
ghost use Rattle.rules.specs.Store.{no_rate, from_byte};
ghost use Rattle.schedule.specs.Stored.{stored_rate};

use pool::Pool;
use rules::{BLOCK_LENGTH, NO_RATE};

// A byte of the store as a rate.
#[tactic(auto, using(crate::proofs::RateLaws::byte_none, crate::proofs::RateLaws::byte_some))]
fn rate_of(byte: u8) -> Option<u8>
    ensures { result ≡ from_byte byte }
{
    (byte != NO_RATE).then_some(byte)
}

// The byte at a place; past the end there is no rate.
fn byte_at(store: &[u8], at: usize) -> u8
    ensures { result ≡ get_or store.now at no_rate }
{
    store.get(at).copied().unwrap_or(NO_RATE)
}

// The rate of a slot, where a file gave one.
#[tactic(auto, using(crate::proofs::RateLaws::rate_steps))]
pub fn rate_at(pool: Pool, store: &[u8], slot: u32) -> Option<u8>
    ensures { result ≡ stored_rate pool store.now slot }
{
    let month = calendar::month_of_slot(slot);
    let b = pool.find(month)?;
    let i = (slot - calendar::first_slot(month)) as usize;
    rate_of(byte_at(store, b * BLOCK_LENGTH + i))
}
