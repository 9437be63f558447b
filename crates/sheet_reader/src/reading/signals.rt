//! The signals of a sheet that was read, by name.
ghost use Rattle.sheet_reader.specs.Readings.{reading_of};
ghost use Rattle.sheet_reader.specs.Signals.{signal_named};

use super::Sheet;
use sheet::signals::SignalNames;

/// A sheet that was read, with the text that its names are parts of.
#[derive(Clone, Copy)]
pub struct SheetSignals<'a> {
    pub sheet: &'a Sheet,
    pub text: &'a [u8],
}

impl<'a> SignalNames for SheetSignals<'a> {
    ghost named = { λ s. signal_named (reading_of s.sheet.now) s.text.now };

    fn signal(&self, word: &[u8]) -> Option<u8> {
        self.sheet.signal(self.text, word)
    }
}
