//! The formula that is judged: every request is granted in the end.
ghost use Rattle.std.specs.Prelude.{◌≡◌};
ghost use Rattle.ltl.specs.Formulas.{tree, table};
ghost use Rattle.tracecheck.specs.Bench.{every_request_granted};

use ltl::formula::Formula;
use ltl::row::Row;

/// `always implies r eventually g`, with r as signal 0 and g as signal 1.
pub fn bench() -> Formula
    ensures watch { (table result).watch ≡ 7 }
    ensures tree { tree result 7 ≡ every_request_granted }
    ensures width { (table result).width ≡ 2 }
{
    let rows = [
        Row::Signal(0),
        Row::Signal(1),
        Row::Eventually(1),
        Row::Not(0),
        Row::Or(3, 2),
        Row::Not(4),
        Row::Eventually(5),
        Row::Not(6),
    ];
    Formula::new(2, &rows, 7).unwrap()
}
