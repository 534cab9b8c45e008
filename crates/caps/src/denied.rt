use thiserror::Error;

/// Why a capability is not granted what was asked, in the order in which the causes are tried.
#[derive(Clone, Copy, PartialEq, Eq, Debug)]
pub enum DeniedWhy {
    /// The port is another service's, or the object is not there.
    NoObject,
    /// The check is not the one that the store makes.
    Check,
    /// A right that is needed is not given.
    Rights,
}

/// The capability is not granted what was asked.
#[derive(Clone, Copy, PartialEq, Eq, Debug, Error)]
#[error("denied: {why:?}")]
pub struct Denied {
    pub why: DeniedWhy,
}
