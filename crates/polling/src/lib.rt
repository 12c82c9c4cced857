// What the unit asks the server for, and when (01, The plain machine): the flags w and h, the failures k, the fixed time f and the update time u.
#![tactic(auto)]

ghost use Rattle.std.specs.Prelude.{◌≡◌, cond, ◌<◌};
ghost use Rattle.rules.specs.Calendar.{day_length};
ghost use Rattle.rules.specs.Store.{sound_requests, fresh_requests};
ghost use Rattle.rules.specs.Machine.{update_time, take_update, take_year, failed_update, failed_fixed, failed, is_status, is_client_error};
ghost use Rattle.rules.specs.Machine.{update_wait, refused_wait, window_start, in_window, next_window};
ghost use Rattle.plant.specs.Plant.{kept_of};
ghost use Rattle.polling.specs.Requests.{requests_of, requests_from};
ghost use Rattle.polling.specs.Due.{due_for};

mod habits;

use habits::{fixed_wait, refused_wait, retries, update_wait, window_length};
use plant::Settings;
use rules::{DAY_LENGTH, Due, END_OF_TIME, Kind, LONGEST_WAIT};

// 'flags 0 to 10 (10 is none)': a number for none, since C's struct holds the flag as it is.
pub const NO_FLAG: u8 = 10;

// 'f and u below T + 172,800'.
const LATEST: u64 = END_OF_TIME as u64 + LONGEST_WAIT as u64;

// 'Window for check digit d: .. from 21:10:00 + 30 × d minutes'.
const FIRST_WINDOW: u32 = 21 * 3600 + 10 * 60;

const WINDOW_STEP: u32 = 1800;

// wanted_flag is w, held_flag h, failures k, fixed_at f and update_at u.
#[derive(Clone, Copy, Debug, PartialEq, Eq)]
pub struct Requests {
    pub wanted_flag: u8,
    pub held_flag: u8,
    pub failures: u8,
    pub fixed_at: u64,
    pub update_at: u64,
}

// Whether a report may have the status: 0, 100-199 or 300-599.
pub fn is_status(status: u64) -> bool
    ensures { result ≡ is_status status }
{
    (status == 0) | (100 <= status) & (status <= 199) | (300 <= status) & (status <= 599)
}

// 400-499.
fn is_client_error(status: u64) -> bool
    ensures { result ≡ is_client_error status }
{
    (400 <= status) & (status <= 499)
}

// How long an update waits after a failure.
fn wait_after(settings: Settings, status: u64) -> u32
    ensures { result ≡ cond (is_client_error status) (refused_wait (kept_of settings)) (update_wait (kept_of settings)) }
{
    if is_client_error(status) {
        refused_wait(settings)
    } else {
        update_wait(settings)
    }
}

// When the window of a check digit begins, in seconds of the day.
#[tactic(auto, unfolding(rules::specs::Machine::window_start))]
fn window_start(digit: u8) -> u32
    ensures exact { result ≡ window_start digit }
    ensures bound { result < day_length }
{
    (FIRST_WINDOW + WINDOW_STEP * digit as u32) % DAY_LENGTH
}

// Whether a second stands in the window, which may pass midnight.
#[tactic(auto, unfolding(rules::specs::Machine::in_window))]
fn in_window(settings: Settings, digit: u8, clock: u32) -> bool
    ensures { result ≡ in_window (kept_of settings) digit clock }
{
    let time = clock % DAY_LENGTH;
    let since = (time + (DAY_LENGTH - window_start(digit))) % DAY_LENGTH;
    since < window_length(settings)
}

// The first window start that is later than the clock.
#[tactic(auto, unfolding(rules::specs::Machine::next_window))]
fn next_window(digit: u8, clock: u32) -> u64
    ensures { result ≡ next_window digit clock }
{
    let midnight = (clock - clock % DAY_LENGTH) as u64;
    let today = midnight + window_start(digit) as u64;
    if (clock as u64) < today {
        today
    } else {
        today + DAY_LENGTH as u64
    }
}

// When an update is asked for after a 203: at its next access, whatever the clock.
#[tactic(auto, unfolding(rules::specs::Machine::update_time))]
fn update_time(clock: u32, next: u32) -> u64
    ensures { result ≡ update_time clock next }
{
    next as u64
}

impl Requests {
    // Those of a fresh unit.
    pub fn fresh() -> Requests
        ensures { result ≡ requests_from fresh_requests }
    {
        Requests {
            wanted_flag: NO_FLAG,
            held_flag: NO_FLAG,
            failures: 0,
            fixed_at: 0,
            update_at: 0,
        }
    }

    // For a plant with these settings.
    #[tactic(auto, unfolding(rules::specs::Store::sound_requests))]
    pub fn sound(self, settings: Settings) -> bool
        ensures { result ≡ sound_requests (kept_of settings) (requests_of self) }
    {
        let most = retries(settings);
        (self.wanted_flag <= NO_FLAG)
            & (self.held_flag <= NO_FLAG)
            & (self.failures <= most)
            & (self.fixed_at < LATEST)
            & (self.update_at < LATEST)
    }

    // After a 203 with its flag and its next access, at the clock.
    #[tactic(auto, unfolding(rules::specs::Machine::take_update))]
    pub fn take_update(self, clock: u32, flag: u8, next: u32) -> Requests
        ensures { result ≡ requests_from (take_update clock flag next (requests_of self)) }
    {
        let update_at = update_time(clock, next);
        if flag == self.wanted_flag {
            return Requests { update_at, ..self };
        }
        Requests {
            wanted_flag: flag,
            failures: 0,
            fixed_at: 0,
            update_at,
            ..self
        }
    }

    // After a 201 with its segment's last digit.
    #[tactic(auto, unfolding(rules::specs::Machine::take_year))]
    pub fn take_year(self, digit: u8) -> Requests
        ensures { result ≡ requests_from (take_year digit (requests_of self)) }
    {
        Requests {
            held_flag: digit,
            failures: 0,
            fixed_at: 0,
            ..self
        }
    }

    #[tactic(auto, unfolding(rules::specs::Machine::failed_update))]
    fn failed_update(self, settings: Settings, clock: u32, status: u64) -> Requests
        ensures { result ≡ requests_from (failed_update (kept_of settings) clock status (requests_of self)) }
    {
        Requests {
            update_at: clock as u64 + wait_after(settings, status) as u64,
            ..self
        }
    }

    #[tactic(auto, unfolding(rules::specs::Machine::failed_fixed))]
    fn failed_fixed(self, settings: Settings, digit: u8, clock: u32, status: u64) -> Requests
        ensures { result ≡ requests_from (failed_fixed (kept_of settings) digit clock status (requests_of self)) }
    {
        let failures = self.failures;
        let most = retries(settings);
        if !is_client_error(status) & (failures < most) {
            return Requests {
                failures: failures + 1,
                fixed_at: clock as u64 + fixed_wait(settings) as u64,
                ..self
            };
        }
        Requests {
            failures: 0,
            fixed_at: next_window(digit, clock),
            ..self
        }
    }

    // After a failure of that kind and status, for a plant with these settings and that check digit.
    // Six parameters: a struct is no plainer: they come from the plant, the call and the clock, and it would be built for one call.
    pub fn failed(
        self,
        settings: Settings,
        kind: Kind,
        digit: u8,
        clock: u32,
        status: u64,
    ) -> Requests
        ensures { result ≡ requests_from (failed (kept_of settings) digit kind clock status (requests_of self)) }
    {
        match kind {
            Kind::Update => self.failed_update(settings, clock, status),
            Kind::Fixed => self.failed_fixed(settings, digit, clock, status),
        }
    }

    // What is due, for a plant with these settings and that check digit.
    #[tactic(auto, unfolding(crate::specs::Due::due_for))]
    pub fn due(self, settings: Settings, digit: u8, clock: u32) -> Option<Due>
        ensures { result ≡ due_for (kept_of settings) digit clock (requests_of self) }
    {
        let now = clock as u64;
        if self.update_at <= now {
            return Some(Due::Update);
        }
        let wanted = self.wanted_flag;
        let asked = (wanted != NO_FLAG) & (wanted != self.held_flag) & (self.fixed_at <= now);
        let open = (0 < self.failures) | in_window(settings, digit, clock);
        (asked & open).then_some(Due::Fixed(wanted))
    }
}
