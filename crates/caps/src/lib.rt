//! Capabilities: sixteen bytes that name an object of a store, say what their holder may do with it,
//! and carry a check that only the store can make, from the secret in the object's entry of its table.
#![tactic(auto)]

mod capability;
mod denied;
mod seal;
mod table;

pub use crate::capability::{BadHex, Capability};
pub use crate::denied::{Denied, DeniedWhy};
pub use crate::table::{grant, mint, restrict};
