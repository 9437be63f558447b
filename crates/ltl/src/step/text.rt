//! A step as people write it: `{0, 3}`.
ghost use Rattle.std.specs.Prelude.{Some};
ghost use Rattle.ltl.specs.Shown.{shown_step};

use super::Step;
use std::fmt;

impl fmt::Display for Step {
    ghost output = { λ s. Some (shown_step s) };

    #[tactic(auto, using(crate::proofs::Signals::shown))]
    fn fmt<W: fmt::Write>(&self, f: &mut fmt::Formatter<W>) -> fmt::Result {
        f.write_str("{")?;
        let mut before = "";
        // A range, and no `filter` of it: tried, and in a function with a type parameter the check can state no invariant of a loop over a closure.
        for k in 0..64 {
            if !self.has(k) {
                continue;
            }
            write!(f, "{before}{k}")?;
            before = ", ";
        }
        f.write_str("}")
    }
}
