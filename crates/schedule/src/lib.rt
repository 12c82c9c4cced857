// The held months' rates: pool and store together. Every answer equals its definition, for every pool, every store and every number.
#![tactic(auto)]

mod layout;
mod needed;
mod putting;
mod rates;
mod sound;

pub use needed::missing;
pub use putting::put_run;
pub use rates::rate_at;
pub use sound::store_holds;
