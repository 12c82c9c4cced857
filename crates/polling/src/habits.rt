// How often and how long a unit tries, by its plant's settings: 01 has one value of each for all plants.
ghost use Rattle.std.specs.Prelude.{◌≡◌};
ghost use Rattle.rules.specs.Machine.{fixed_wait, update_wait, refused_wait, window_length};
ghost use Rattle.rules.specs.Store.{retries};
ghost use Rattle.plant.specs.Plant.{kept_of};

use plant::Settings;

// 'failures 0 to 5', and 'k < 5'. A u8 as k is, so that k + 1 fits wherever k is below it.
pub(crate) fn retries(settings: Settings) -> u8
    ensures { result ≡ retries (kept_of settings) }
{
    5
}

// 'f = clock + 300'.
pub(crate) fn fixed_wait(settings: Settings) -> u32
    ensures { result ≡ fixed_wait (kept_of settings) }
{
    300
}

// 'u = clock + 1,800'.
pub(crate) fn update_wait(settings: Settings) -> u32
    ensures { result ≡ update_wait (kept_of settings) }
{
    1800
}

// 'for 400-499 clock + 86,400'.
pub(crate) fn refused_wait(settings: Settings) -> u32
    ensures { result ≡ refused_wait (kept_of settings) }
{
    86400
}

// 'Window for check digit d: 20 minutes'.
pub(crate) fn window_length(settings: Settings) -> u32
    ensures { result ≡ window_length (kept_of settings) }
{
    1200
}
