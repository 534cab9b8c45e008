use std::error::Error;
use std::fmt;

/// A device, a source or a sink refused a call. Which one, and why it counts, is said by its count of faults.
#[derive(Clone, Copy, Debug, PartialEq, Eq)]
pub struct Failed;

impl fmt::Display for Failed {
    fn fmt<W: fmt::Write>(&self, f: &mut fmt::Formatter<W>) -> fmt::Result {
        write!(f, "a device call failed")
    }
}

impl Error for Failed {}
