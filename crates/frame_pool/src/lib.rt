//! A pool of page frames that is taken once and leased out in equal parts. No frame is out twice.
#![tactic(auto)]

mod frame;
mod lease;
mod leases;
mod pool;
mod run;

pub use afs_base::Memory;
pub use frame::Frame;
pub use lease::Lease;
pub use leases::Leases;
pub use pool::Pool;
pub use run::{FRAMES, Run};
