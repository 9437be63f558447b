//! The worked examples and the refusals of the documentation, as tests over the public calls.
#![tactic(auto)]

#[cfg(test)]
mod refusals;
#[cfg(test)]
mod sheets;

#[cfg(test)]
mod tests {
    use crate::refusals::told;
    use heap_grid::cells::judged;
    use ltl::formula::Formula;
    use ltl::refusal::Part;
    use ltl::row::Row;
    use ltl::step::Step;
    use recorder::plain::PlainRecorder;
    use recorder::recording::{Recorder, Recording};
    use scales::pair::{Count, Pair};
    use scales::truth::Truth;
    use std::test::Fail;
    use values::grid::Grid;
    use values::grid::columns::evaluate;

    const A: Row = Row::Signal(0);

    const B: Row = Row::Signal(1);

    const NONE: Pair = Pair {
        s: Count::Impossible,
        f: Count::Impossible,
    };

    // The pair of the last row at position 1, over steps of two signals.
    fn first_pair(rows: &[Row], steps: &[u64]) -> Result<Pair, Fail> {
        let watch = rows.len().saturating_sub(1);
        let formula = Formula::new(2, rows, watch).ok_or("no formula")?;
        let mut words = [0u32; 8];
        let Ok(mut recorder) = PlainRecorder::open(2, &mut words) else {
            return Err(Fail::new("not opened"));
        };
        for bits in steps {
            recorder.record(Step::from_bits(*bits))?;
        }
        let mut cells = [NONE; 64];
        evaluate(&formula, &recorder, &mut cells)?;
        let positions = recorder.len().saturating_add(1);
        Ok(
            Grid::new(&mut cells, rows.len(), positions)
                .get(watch, 1)
                .ok_or("no cell")?,
        )
    }

    #[test]
    fn worked_examples(rt: HostRuntime) -> Result<(), Fail> {
        let three = Count::Number(3);
        let eventually = [A, Row::Eventually(0)];
        assert_eq!(rt;
            first_pair(&eventually, &[0, 0, 0])?,
            Pair::new(three, Count::Infinite)
        );
        let always = [A, Row::Not(0), Row::Eventually(1), Row::Not(2)];
        assert_eq!(rt;
            first_pair(&always, &[1, 1, 1])?,
            Pair::new(Count::Infinite, three)
        );
        let either = [A, Row::Not(0), Row::Or(0, 1)];
        assert_eq!(rt;
            first_pair(&either, &[])?,
            Pair::new(Count::Number(0), Count::Number(0))
        );
        let until = [A, B, Row::Until(0, 1)];
        assert_eq!(rt;
            first_pair(&until, &[1])?,
            Pair::new(Count::Number(1), Count::Number(1))
        );
        Ok(())
    }

    #[test]
    fn texts(rt: HostRuntime) -> Result<(), Fail> {
        let heap = rt.alloc();
        let step = Step::from_bits(9);
        assert!(rt; format!(in heap; "{step}")?.as_str() == "{0, 3}");
        let pair = Pair::new(Count::Number(3), Count::Infinite);
        assert!(rt; format!(in heap; "{pair}")?.as_str() == "(3, inf)");
        let pair = Pair::new(Count::Impossible, Count::Number(0));
        assert!(rt; format!(in heap; "{pair}")?.as_str() == "(-, 0)");
        Ok(())
    }

    #[test]
    fn rows_that_make_no_formula(rt: HostRuntime) {
        assert!(rt;
            Formula::new(1, &[Row::Not(0)], 0).is_none(),
            "its own operand"
        );
        assert!(rt;
            Formula::new(1, &[A, Row::Or(0, 2), A], 1).is_none(),
            "a later operand"
        );
        assert!(rt;
            Formula::new(1, &[A, B], 0).is_none(),
            "a signal not below the width"
        );
        assert!(rt; Formula::new(1, &[], 0).is_none(), "no row");
        assert!(rt; Formula::new(1, &[A], 1).is_none(), "no watch row");
        assert!(rt; Formula::new(0, &[A], 0).is_none(), "no signal");
        assert!(rt; Formula::new(33, &[A], 0).is_none(), "33 signals");
        assert!(rt;
            Formula::new(32, &[Row::Signal(31); 64], 63).is_some(),
            "32 signals and 64 rows"
        );
        assert!(rt;
            Formula::new(32, &[Row::Signal(31); 65], 0).is_none(),
            "65 rows"
        );
    }

    // How opening over so many words is refused, if it is.
    fn opening(width: u8, words: &mut [u32]) -> Option<(u8, Part, usize)> {
        match PlainRecorder::open(width, words) {
            Ok(_) => None,
            Err(refused) => Some(told(refused.fault.refusal())),
        }
    }

    #[test]
    fn openings(rt: HostRuntime) {
        let ten = (10, Part::Recording, 0);
        assert_eq!(rt; opening(0, &mut [0; 1]), Some(ten));
        assert_eq!(rt; opening(33, &mut [0; 1]), Some(ten));
        assert_eq!(rt; opening(1, &mut []), Some(ten));
        assert_eq!(rt; opening(1, &mut [0; 1]), None);
        assert_eq!(rt; opening(32, &mut [0; 1]), None);
    }

    // How recording is refused, if it is.
    fn refused<R: Recorder>(recorder: &mut R, bits: u64) -> Option<(u8, Part, usize)> {
        match recorder.record(Step::from_bits(bits)) {
            Ok(_) => None,
            Err(fault) => Some(told(fault.refusal())),
        }
    }

    #[test]
    fn recordings(rt: HostRuntime) -> Result<(), Fail> {
        let mut words = [7u32; 3];
        {
            let Ok(mut recorder) = PlainRecorder::open(2, &mut words[0..2]) else {
                return Err(Fail::new("not opened"));
            };
            assert_eq!(rt; recorder.len(), 0);
            let eight = (8, Part::Recording, 0);
            assert_eq!(rt; refused(&mut recorder, 4), Some(eight));
            assert!(rt; !recorder.room(Step::from_bits(4)));
            assert_eq!(rt; refused(&mut recorder, 1), None);
            assert_eq!(rt; refused(&mut recorder, 2), None);
            let nine = (9, Part::Recording, 0);
            assert_eq!(rt; refused(&mut recorder, 0), Some(nine));
            assert_eq!(rt;
                refused(&mut recorder, 4),
                Some(eight),
                "8 is asked before 9"
            );
            assert_eq!(rt; recorder.len(), 2);
            assert_eq!(rt; recorder.step(0).bits(), 0);
            assert_eq!(rt; recorder.step(1).bits(), 1);
            assert_eq!(rt; recorder.step(2).bits(), 2);
            assert_eq!(rt; recorder.step(3).bits(), 0);
        }
        assert_eq!(rt; words[0], 1);
        assert_eq!(rt; words[1], 2);
        assert_eq!(rt; words[2], 7, "words past those handed in stay");
        Ok(())
    }

    #[test]
    fn grids(rt: HostRuntime) -> Result<(), Fail> {
        let formula = Formula::new(1, &[A, Row::Eventually(0)], 1).ok_or("no formula")?;
        let mut words = [0u32; 4];
        let Ok(mut recorder) = PlainRecorder::open(1, &mut words) else {
            return Err(Fail::new("not opened"));
        };
        recorder.record(Step::empty())?;
        let mut cells = [Truth::True; 5];
        let seventeen = (17, Part::Watch, 0);
        match evaluate(&formula, &recorder, &mut cells[0..3]) {
            Ok(()) => return Err(Fail::new("three cells for two rows and two positions")),
            Err(fault) => assert_eq!(rt; told(fault.refusal()), seventeen),
        }
        assert!(rt; cells[2] == Truth::True, "a refused grid is unchanged");
        evaluate(&formula, &recorder, &mut cells)?;
        assert!(rt; cells[0] == Truth::False);
        assert!(rt; cells[1] == Truth::Undecided);
        assert!(rt; cells[2] == Truth::Undecided);
        assert!(rt; cells[3] == Truth::Undecided);
        assert!(rt; cells[4] == Truth::True, "the cell past them stays");
        Ok(())
    }

    #[test]
    fn cells_on_the_heap(rt: HostRuntime) -> Result<(), Fail> {
        let formula = Formula::new(1, &[A, Row::Eventually(0)], 1).ok_or("no formula")?;
        let mut words = [0u32; 4];
        let Ok(mut recorder) = PlainRecorder::open(1, &mut words) else {
            return Err(Fail::new("not opened"));
        };
        recorder.record(Step::empty())?;
        let cells = judged(rt.alloc(), &formula, &recorder)?;
        assert_eq!(rt; cells.len(), 4, "two rows and two positions");
        assert_eq!(rt; cells[0].0, Truth::False);
        assert_eq!(rt; cells[1].0, Truth::Undecided);
        assert_eq!(rt; cells[2].0, Truth::Undecided);
        assert_eq!(rt; cells[3].0, Truth::Undecided);
        let one = Count::Number(1);
        assert_eq!(rt; cells[0].1, Pair::new(Count::Impossible, Count::Number(0)));
        assert_eq!(rt; cells[2].1, Pair::new(one, Count::Infinite));
        Ok(())
    }
}
