// The ceiling of a slot, under every check: what the pool and the store say of it, and what that is of the inverter's capacity.
#![tactic(auto)]

ghost use Rattle.std.specs.Prelude.{◌≡◌};
ghost use Rattle.plant.specs.Plant.{settings_of};
ghost use Rattle.schedule.specs.Stored.{stored_rate};
ghost use Rattle.ceiling.specs.Ceiling.{slot_ceiling};

use plant::Plant;
use pool::Pool;
use rules::Ceiling;

// The ceiling of a slot; None where no file gave it a rate.
// Plant, pool and store apart: a struct of them is no plainer: each caller has the three and would build it, and contracts name its fields by `.entry`.
pub fn of_slot(plant: Plant, pool: Pool, store: &[u8], slot: u32) -> Option<Ceiling>
    ensures { result ≡ slot_ceiling (settings_of plant) (stored_rate pool store.now slot) }
{
    let rate = schedule::rate_at(pool, store, slot)?;
    Some(Ceiling {
        rate,
        percent: plant.percent(rate),
    })
}
