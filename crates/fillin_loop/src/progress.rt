// The count of windows on standard error, for someone who waits at a terminal while the lines go elsewhere. What
// standard error does not take is left out.
use std::io::{Eprint, IsTerminal, Stderr};

// How many windows lie between two counts that are shown.
const STEP: u64 = 1_000;

// Standard error, whether counts are shown there, and the latest that was; 0 where none was yet.
#[derive(Clone, Copy)]
pub(crate) struct Counter {
    pub errors: Stderr,
    wanted: bool,
    shown: u64,
}

// Whether standard error is a terminal, and the lines do not go to one.
fn is_wanted<W: IsTerminal>(errors: Stderr, output: &W) -> bool {
    errors.is_terminal() && !output.is_terminal()
}

// Writes a count over the one before it.
fn show(errors: Stderr, windows: u64) {
    let _ = eprint!(errors; "\rfillin: {windows} windows");
}

impl Counter {
    // Before the first record, where the lines go to this writer.
    pub(crate) fn begin<W: IsTerminal>(errors: Stderr, output: &W) -> Self {
        Counter {
            errors,
            wanted: is_wanted(errors, output),
            shown: 0,
        }
    }

    // After so many windows: the latest thousand is shown, where it was not yet.
    pub(crate) fn after(mut self, windows: u64) -> Self {
        if !self.wanted {
            return self;
        }
        let full = windows - windows % STEP;
        if full == self.shown {
            return self;
        }
        show(self.errors, full);
        self.shown = full;
        self
    }

    // Ends the line of the counts, where there is one.
    pub(crate) fn end(self) {
        if self.shown > 0 {
            let _ = eprintln!(self.errors);
        }
    }
}
