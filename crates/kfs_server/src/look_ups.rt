//! Look-ups: frames that make no call of a desk, and what they find.
mod files;
mod found;
mod leases;
mod look_up;
mod names;
mod permission;
mod plans;
mod reading;
mod spelling;

pub(crate) use self::files::{found_bytes, found_number};
pub use self::found::{FOUND_LIMIT, Figures, Found, TierFigures};
pub(crate) use self::found::{figures_now, tier_now};
pub(crate) use self::leases::found_leases;
pub(crate) use self::look_up::look_up_in;
pub use self::look_up::{LookUp, look_up_of};
pub(crate) use self::names::found_names;
pub(crate) use self::permission::may_ask;
pub(crate) use self::plans::found_plan;
pub use self::spelling::{FOUND_HEAD_LIMIT, found_tail, spell_found_head};
