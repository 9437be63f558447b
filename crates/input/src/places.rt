//! The line of a text in which a place lies, so that a person can be shown it.
ghost use Rattle.std.specs.Prelude.{◌≡◌, ◌≤◌, min, not, ◌==◌, reverse, length};
ghost use Rattle.std.specs.List.{take_while};
ghost use Rattle.input.specs.Places.{around};

use sheet::words::run_len;

/// A line of a text: the offsets where it begins and ends.
// No `Range`, which is not `Copy`.
#[derive(Clone, Copy, Debug)]
pub struct Around {
    pub from: usize,
    pub to: usize,
}

/// How many bytes stand after the last byte 10.
// Beside `run_len`, which goes on from the front: the iterator as a parameter would be longer than either line.
fn last_line_len(s: &[u8]) -> usize
    ensures { result ≡ length (take_while (λ b. not (b == 10)) (reverse s.now)) }
{
    s.iter().rev().take_while(|b| **b != b'\n').count()
}

/// The offsets of the line in which a place lies; a place past the end is the end.
#[tactic(auto, using(crate::proofs::Around::around_is))]
pub fn line_around(s: &[u8], place: usize) -> Around
    ensures is { result ≡ around s.now place }
    ensures within { (result.from ≤ min place (length s.now)) × (result.to ≤ length s.now) × (min place (length s.now) ≤ result.to) }
{
    let place = place.min(s.len());
    let (before, after) = s.split_at(place);
    Around {
        from: place - last_line_len(before),
        to: place + run_len(after, b'\n'),
    }
}
