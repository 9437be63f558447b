//! A step: the set of signals that are present at one position of a recording.

/// A set of signals. Signal k is in it where the bit worth 2^k is 1.
#[derive(Clone, Copy, PartialEq, Eq, Debug)]
pub struct Step {
    bits: u64,
}

mod sets;
mod text;
