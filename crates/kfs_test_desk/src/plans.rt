//! The maker of plans: what it makes is what a desk accepts. Begin with `accepted.rt`.

mod accepted;
mod climbs;
mod desks;
mod kept_names;
mod logs;
mod refused;
