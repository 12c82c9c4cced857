#![tactic(auto)]

ghost use Rattle.std.specs.Prelude.{◌≡◌, ℕ, ◌<◌, ◌+◌, ◌*◌, ◌^◌, eqb, get_or};
ghost use Rattle.rules.specs.Store.{block_count};
ghost use Rattle.pool.specs.Below.{tick, count_below, all_below, pairs_below};
ghost use Rattle.pool.specs.Held.{sound_pool};
ghost use Rattle.pool.specs.Blocks.{is_free, holds, free_count, find_of, take_of, free_after, release_of, in_range, key_of, KeysOf};

use rules::{BLOCK_COUNT, LAST_MONTH, MONTH_COUNT};

// The blocks: bit b of free is set where block b is free, and months[b] is the month of a used block b.
#[derive(Clone, Copy)]
pub struct Pool {
    pub months: [u16; BLOCK_COUNT],
    pub free: u16,
}

// The map of blocks that are all free.
pub const ALL_FREE: u16 = ((1u64 << BLOCK_COUNT) - 1) as u16;

// The pool that a call hands back with its answer, as 01 has it of the unit: the block that was taken, if one was free.
#[derive(Clone, Copy)]
pub struct Taken {
    pub pool: Pool,
    pub place: Option<usize>,
}

// Keys of free blocks are from here on.
const FREE_KEYS: u16 = MONTH_COUNT;

// How many blocks have the key. It looks at each, so that it vectorises.
#[tactic(auto, using(crate::proofs::BelowLaws::count_step, crate::proofs::BelowLaws::count_le), unfolding(crate::specs::Below::sum_below))]
fn same_keys(keys: [u16; BLOCK_COUNT], key: u16) -> u16
    ensures { result ≡ count_below block_count (λ c. eqb (get_or keys c 0) key) }
{
    let mut count: u16 = 0;
    for other in keys {
        count += u16::from(other == key);
    }
    count
}

// Each block with itself.
const OWN_PAIRS: u16 = BLOCK_COUNT as u16;

// How many pairs of two blocks, or of a block and itself, have one key.
#[tactic(auto, using(crate::proofs::BelowLaws::pairs_none, crate::proofs::BelowLaws::pairs_step, crate::proofs::BelowLaws::count_le))]
fn pairs(keys: [u16; BLOCK_COUNT]) -> u16
    ensures { result ≡ pairs_below block_count (λ c. get_or keys c 0) }
{
    let mut count: u16 = 0;
    for key in keys {
        count += same_keys(keys, key);
    }
    count
}

impl Pool {
    // Whether block b is free. No block from BLOCK_COUNT on is, and the map has no bit to shift to there.
    #[tactic(auto, using(crate::proofs::BelowLaws::bit_past))]
    pub fn is_free(self, b: usize) -> bool
        ensures { result ≡ is_free self b }
    {
        b < BLOCK_COUNT && (self.free >> b) % 2 == 1
    }

    #[tactic(auto, using(crate::proofs::BelowLaws::ones_count), unfolding(crate::specs::Blocks::free_count))]
    pub fn free_count(self) -> u32
        ensures { result ≡ free_count self }
    {
        u16::count_ones(self.free)
    }

    // The block that holds the month.
    pub fn find(self, month: u16) -> Option<usize>
        ensures { result ≡ find_of self month }
    {
        self.months
            .iter()
            .enumerate()
            .find(|&(b, &own)| !self.is_free(b) & (own == month))
            .map(|(b, _)| b)
    }

    // Gives the lowest free block to the month.
    pub fn take(self, month: u16) -> Taken
        ensures { result ≡ take_of self month }
    {
        let b = u16::trailing_zeros(self.free) as usize;
        if BLOCK_COUNT <= b {
            return Taken {
                pool: self,
                place: None,
            };
        }
        let mut months = self.months;
        months[b] = month;
        let free = self.free - (1u16 << b);
        Taken {
            pool: Pool { months, free },
            place: Some(b),
        }
    }

    // Frees every used block whose month is below floor.
    #[tactic(auto, using(crate::proofs::BelowLaws::digit_steps), unfolding(crate::specs::Blocks::release_of, crate::specs::Below::sum_below))]
    pub fn release_below(self, floor: u16) -> Pool
        ensures { result ≡ release_of self floor }
    {
        let mut free: u16 = 0;
        for (b, &month) in self.months.iter().enumerate() {
            free += u16::from(self.is_free(b) | (month < floor)) << b;
        }
        Pool { free, ..self }
    }

    // Whether each block is free, or has a month between floor and the last one. It looks at each, so that it vectorises.
    #[tactic(auto, using(crate::proofs::BelowLaws::all_none, crate::proofs::BelowLaws::all_step))]
    fn all_in_range(self, floor: u16) -> bool
        ensures { result ≡ all_below block_count (in_range self floor) }
    {
        let mut good = true;
        for (b, &month) in self.months.iter().enumerate() {
            good = (self.is_free(b) | (floor <= month) & (month <= LAST_MONTH)) & good;
        }
        good
    }

    // The month of block b, or a number past all months where it is free, which no other block has.
    fn key(self, b: usize) -> u16
        requires { b < block_count }
        ensures { result ≡ key_of self b }
    {
        if self.is_free(b) {
            FREE_KEYS + b as u16
        } else {
            self.months[b]
        }
    }

    #[tactic(auto, using(crate::proofs::FindLaws::made_at))]
    fn keys(self) -> [u16; BLOCK_COUNT]
        ensures { KeysOf self result }
    {
        std::array::from_fn(|b| self.key(b))
    }

    // Each block has its own key where it has it with itself alone.
    pub fn sound(self, floor: u16) -> bool
        ensures { result ≡ sound_pool self floor }
    {
        self.all_in_range(floor) & (pairs(self.keys()) <= OWN_PAIRS)
    }
}
