//! The plain recorder: one 32-bit word a step, in memory that is handed in.
ghost use Rattle.std.specs.Prelude.{ℕ, ◌^◌, ◌<◌, ◌≤◌, min, length, slice_index};

use crate::fault::{OpenFault, RecordFault};
use crate::recording::{Recorder, Recording};
use ltl::step::Step;

/// The most steps of any recording.
pub const LIMIT: usize = 4096;

/// Keeps the step at position i in word i - 1, signal k as the bit worth 2^k.
#[derive(Drop)]
pub struct PlainRecorder<'a> {
    // A slice with a count, and no vector: the caller hands in the memory.
    words: &'a mut [u32],
    held: usize,
    width: u8,
    ghost some_signal: { 1 ≤ width },
    ghost few_signals: { width ≤ 32 },
    ghost few_steps: { held ≤ min (length words.now) 4096 },
    ghost low: { (k : ℕ) → k < held → slice_index words.now k < 2 ^ width },
}

/// A recorder that was not opened: why, and the memory as it was handed in.
#[derive(Drop)]
pub struct NotOpened<'a> {
    pub fault: OpenFault,
    pub words: &'a mut [u32],
}

impl<'a> PlainRecorder<'a> {
    ghost use Rattle.std.specs.Prelude.{◌≡◌, MatchResult};
    ghost use Rattle.recorder.specs.Plain.{plain_capacity};
    ghost use Rattle.recorder.specs.Opens.{Opened, Refused};

    /// A recorder of so many signals without steps, over this memory, of which nothing is written.
    pub fn open(width: u8, words: &'a mut [u32]) -> Result<PlainRecorder<'a>, NotOpened<'a>>
        ensures { MatchResult result (λ p. Opened width words.old p) (λ e. Refused width words.old e) }
    {
        if !(1..=32).contains(&width) {
            return Err(NotOpened {
                fault: OpenFault::Width,
                words,
            });
        }
        if words.is_empty() {
            return Err(NotOpened {
                fault: OpenFault::Memory,
                words,
            });
        }
        Ok(PlainRecorder {
            words,
            held: 0,
            width,
        })
    }

    /// K: a step to a word, and at most 4,096.
    fn capacity(&self) -> usize
        ensures { result ≡ plain_capacity self.now }
    {
        self.words.len().min(LIMIT)
    }
}

impl<'a> Recording for PlainRecorder<'a> {
    ghost use Rattle.recorder.specs.Plain.{plain_width, plain_steps};
    ghost use Rattle.recorder.specs.PlainLaws.{plain_lawful};

    ghost width = { plain_width };

    ghost steps = { plain_steps };

    ghost lawful = { plain_lawful };

    fn width(&self) -> u8 {
        self.width
    }

    fn len(&self) -> usize {
        self.held
    }

    fn step(&self, at: usize) -> Step {
        if at == 0 || at > self.held {
            return Step::empty();
        }
        Step::from_bits(u64::from(self.words[at - 1]))
    }
}

impl<'a> Recorder for PlainRecorder<'a> {
    ghost use Rattle.std.specs.Prelude.{◌≡◌};
    ghost use Rattle.ltl.specs.Steps.{set_of};
    ghost use Rattle.recorder.specs.Recordings.{Roomy, record_answer, grown, Unchanged};
    ghost use Rattle.recorder.specs.Plain.{plain_width, plain_steps, plain_capacity, plain_room, words_after};

    ghost room = { plain_room };

    ghost capacity = { plain_capacity };

    fn room(&self, step: Step) -> bool {
        step.is_below(self.width) && self.held < self.capacity()
    }

    fn record(&mut self, step: Step) -> Result<usize, RecordFault>
        ensures answer { result ≡ record_answer (plain_width self.old) (plain_room self.old (set_of step)) (length (plain_steps self.old)) (set_of step) }
        ensures steps { plain_steps self.new ≡ grown result (plain_steps self.old) (set_of step) }
        ensures width { plain_width self.new ≡ plain_width self.old }
        ensures capacity { plain_capacity self.new ≡ plain_capacity self.old }
        ensures refused { Unchanged result self.old self.new }
        ensures law { Roomy (plain_width self.old) (plain_capacity self.old) (length (plain_steps self.old)) (set_of step) (plain_room self.old (set_of step)) }
        ensures words { self.new.words.now ≡ words_after result (length (plain_steps self.old)) self.old.words.now (set_of step) }
    {
        if !step.is_below(self.width) {
            return Err(RecordFault::ForeignSignal);
        }
        let n = self.held;
        if n >= self.capacity() {
            return Err(RecordFault::NoRoom);
        }
        // `as`, of which it is proved that no bit is lost: `try_from` would add a case that cannot be.
        self.words[n] = step.bits() as u32;
        self.held = n + 1;
        Ok(n + 1)
    }
}
