// Whether a store is sound with a pool: one scan of the held blocks' bytes, with no early exit, so that it vectorises.
ghost use Rattle.std.specs.Prelude.{◌≡◌, ◌||◌};
ghost use Rattle.rules.specs.Store.{all, sound_block, lawful_byte};
ghost use Rattle.pool.specs.Blocks.{is_free};
ghost use Rattle.schedule.specs.Stored.{store_holds};
ghost use Rattle.schedule.specs.Rates.{rank_of, blank_byte};

use crate::layout::SLOTS_OF_DAY;
use pool::Pool;
use rules::{BLOCK_LENGTH, HIGHEST_RATE, NO_RATE, STORE_LENGTH};

// The rank of the highest rate: 255 has rank 0, and each rate one more than itself.
const HIGHEST_RANK: u8 = HIGHEST_RATE + 1;

// A byte's rank where 255 comes first, before 0.
fn rank(x: u8) -> u8
    ensures { result ≡ rank_of x }
{
    x.wrapping_add(1)
}

// Whether each byte is lawful, a rate or 255: the greatest rank is a rate's, which takes two vector operations for 16 bytes.
#[tactic(auto, using(crate::proofs::StoreLaws::rates_step, crate::proofs::StoreLaws::scan_end))]
fn all_lawful(s: &[u8]) -> bool
    ensures { result ≡ all lawful_byte s.now }
{
    let mut worst: u8 = 0;
    for &x in s {
        worst = worst.max(rank(x));
    }
    worst <= HIGHEST_RANK
}

// Whether each byte is 255.
#[tactic(auto, using(crate::proofs::StoreLaws::scan_step, crate::proofs::StoreLaws::scan_end))]
fn all_blank(s: &[u8]) -> bool
    ensures { result ≡ all blank_byte s.now }
{
    let mut good = true;
    for &x in s {
        good = good & (x == NO_RATE);
    }
    good
}

// Whether a month's block has 'bytes 0 to 100 or 255, and 255 past its month's end'.
#[tactic(auto, using(crate::proofs::StoreLaws::month_fits, crate::proofs::StoreLaws::block_parts))]
fn block_holds(month: u16, block: &[u8; BLOCK_LENGTH]) -> bool
    ensures { result ≡ sound_block month block.now }
{
    let end = SLOTS_OF_DAY * (calendar::days_of_month(month) as usize);
    all_lawful(&block[..end]) & all_blank(&block[end..])
}

// Whether block b, with its month and its bytes, is free, or is sound.
fn place_holds(pool: Pool, b: usize, month: u16, block: &[u8; BLOCK_LENGTH]) -> bool
    ensures { result ≡ (is_free pool b || sound_block month block.now) }
{
    pool.is_free(b) || block_holds(month, block)
}

// Whether the store has its length, and each held block is sound.
#[tactic(auto, using(crate::proofs::StoreLaws::store_other, crate::proofs::StoreLaws::store_none))]
pub fn store_holds(pool: Pool, store: &[u8]) -> bool
    ensures { result ≡ store_holds pool store.now }
{
    if store.len() != STORE_LENGTH {
        return false;
    }
    let (blocks, _) = store.as_chunks();
    let mut good = true;
    for (b, (month, block)) in pool.months.iter().zip(blocks).enumerate() {
        good = place_holds(pool, b, *month, block) & good;
    }
    good
}
