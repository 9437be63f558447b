//! What a refusal tells, as tests compare it.
use ltl::refusal::{Part, Refusal};

/// A refusal's number, part and place.
pub(crate) fn told(refusal: Refusal) -> (u8, Part, usize) {
    (
        refusal.question.number(),
        refusal.question.part(),
        refusal.place,
    )
}
