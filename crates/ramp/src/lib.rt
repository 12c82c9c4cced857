// The command over the seconds of a tick: at once over a slot, and over the slots between only by the last of them, so that a long tick
// costs what a short one costs.
#![tactic(auto)]

ghost use Rattle.std.specs.Prelude.{◌≡◌, ◌+◌, ◌-◌, ◌*◌};
ghost use Rattle.rules.specs.Calendar.{slot_length};
ghost use Rattle.plant.specs.Plant.{settings_of};
ghost use Rattle.ramp.specs.Command.{goal_of, command_over, moved, last_second, InReach, command_after};

use plant::Plant;
use pool::Pool;
use rules::SLOT_LENGTH;

// 'By at most 100' parts each second.
const STEP: u64 = 100;

// N is '5 to 10'.
const MOST_MINUTES: u32 = 10;

// 'Command at most 6,000 × N'.
const MOST_COMMAND: u32 = 6000 * MOST_MINUTES;

// So many seconds toward one goal.
#[tactic(auto, using(crate::proofs::Laws::clamped))]
fn toward(goal: u64, seconds: u32, command: u64) -> u64
    ensures { result ≡ moved goal seconds command }
{
    let most = STEP * (seconds as u64);
    goal.clamp(command.saturating_sub(most), command.saturating_add(most))
}

// The parts that the command goes to in a slot: those of its ceiling; 'no rate counts as r = 0'.
#[tactic(auto, using(crate::proofs::Laws::goal_steps))]
fn goal_of(plant: Plant, pool: Pool, store: &[u8], slot: u32) -> u64
    ensures { result ≡ goal_of (settings_of plant) pool store.now slot }
{
    match ceiling::of_slot(plant, pool, store, slot) {
        Some(ceiling) => plant.parts(ceiling.percent),
        None => plant.parts(plant.percent(0)),
    }
}

// So many seconds of one slot.
fn in_slot(plant: Plant, pool: Pool, store: &[u8], slot: u32, seconds: u32, command: u64) -> u64
    ensures { result ≡ moved (goal_of (settings_of plant) pool store.now slot) seconds command }
{
    toward(goal_of(plant, pool, store, slot), seconds, command)
}

// The whole slots between two: after one the command stands on its goal, so that only the last of them counts.
#[tactic(auto, using(crate::proofs::Laws::between_none))]
fn between(plant: Plant, pool: Pool, store: &[u8], first: u32, last: u32, command: u64) -> u64
    requires { InReach plant.settings.minutes first last command }
    ensures { result ≡ command_over (settings_of plant) pool store.now (slot_length * (last - first - 1)) (last_second first) command }
{
    let whole = last - 1;
    if first < whole {
        goal_of(plant, pool, store, whole)
    } else {
        command
    }
}

// The rest of the first slot, the whole slots after it, and the seconds of the last one.
fn over(plant: Plant, pool: Pool, store: &[u8], clock: u32, until: u32, command: u64) -> u64
    requires { InReach plant.settings.minutes clock until command }
    ensures { result ≡ command_over (settings_of plant) pool store.now (until - clock) clock command }
{
    let first = calendar::slot_of(clock + 1);
    let last = calendar::slot_of(until);
    if first == last {
        return in_slot(plant, pool, store, first, until - clock, command);
    }
    let rest = SLOT_LENGTH * (first + 1) - 1 - clock;
    let left = in_slot(plant, pool, store, first, rest, command);
    let stands = between(plant, pool, store, first, last, left);
    in_slot(
        plant,
        pool,
        store,
        last,
        until - SLOT_LENGTH * last + 1,
        stands,
    )
}

// The command after a tick from clock to until, from what the pool and the store say before it.
// Plant, pool and store apart here and above: tried a struct of them: the proof didn't close: that a store in a struct holds bytes, which bounds each goal.
#[tactic(auto, using(crate::proofs::Laws::after_steps))]
pub fn command_after(
    plant: Plant,
    pool: Pool,
    store: &[u8],
    clock: u32,
    until: u32,
    command: u32,
) -> u32
    ensures { result ≡ command_after plant pool store.now clock until command }
{
    let minutes = plant.settings.minutes;
    let from = clock;
    let to = until;
    if to <= from {
        return command;
    }
    if MOST_MINUTES < minutes {
        return command;
    }
    if MOST_COMMAND < command {
        return command;
    }
    over(plant, pool, store, clock, until, command as u64) as u32
}
