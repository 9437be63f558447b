//! Bytes cut into parts at a separator: lines at byte 10, words at byte 32.
ghost use Rattle.std.specs.Prelude.{◌+◌, ◌^◌, ◌<◌, length};

/// A longest part without the separator, and its offset.
#[derive(Clone, Copy, Debug)]
pub struct Word<'a> {
    pub text: &'a [u8],
    pub at: usize,
}

/// A word, and how many bytes lie up to its end.
#[derive(Clone, Copy, Debug)]
pub struct Next<'a> {
    pub word: Word<'a>,
    pub used: usize,
}

/// The parts of a text that are left, in order.
#[derive(Clone, Copy, Debug)]
pub struct Parts<'a, const SEPARATOR: u8> {
    rest: &'a [u8],
    at: usize,
    ghost within: { at + length rest.now < 2 ^ 63 },
}

pub type Words<'a> = Parts<'a, b' '>;

pub type Lines<'a> = Parts<'a, b'\n'>;

mod cuts;

pub use cuts::{next_word, run_len};
