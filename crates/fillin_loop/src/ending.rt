// How the answering ended.
ghost use Rattle.std.specs.Prelude.{◌≡◌, ◌≢◌, ◌≤◌};

use crate::progress::Counter;
use std::fmt::InlineText;
use std::io::{Eprint, Error, Stderr};

// Room for the system's words, and for the number that std puts behind them.
const ROOM: usize = 128;

#[derive(Clone, Copy)]
pub enum Ending {
    // With the line `end`.
    Ended,
    // With the line `stop`.
    Stopped,
    // The input could not be read on, or lines not be written, or there were too many turns: the transcript has
    // neither.
    Unreadable,
    Unwritable,
    TooMany,
}

impl Ending {
    // The status of a program that ends so: 0 for `end`, 1 for `stop`, 2 where the transcript has neither.
    pub fn status(self) -> u64
        ensures ended { self ≡ Ending.Ended → result ≡ 0 }
        ensures stopped { self ≡ Ending.Stopped → result ≡ 1 }
        ensures neither { self ≢ Ending.Ended → self ≢ Ending.Stopped → result ≡ 2 }
        ensures bound { result ≤ 2 }
    {
        match self {
            Ending::Ended => 0,
            Ending::Stopped => 1,
            Ending::Unreadable => 2,
            Ending::Unwritable => 2,
            Ending::TooMany => 2,
        }
    }
}

// Says on standard error what failed, and why in the system's words, without their number.
fn fail(errors: Stderr, what: &str, why: Error) {
    let text = InlineText::<ROOM>::of(why);
    let all = text.as_str();
    let words = match all.split_once(" (os error ") {
        Some((words, _)) => words,
        None => all,
    };
    let _ = eprintln!(errors; "fillin: {what}: {words}");
}

// Ends where the input could not be read on, and says why.
pub(crate) fn unreadable(progress: Counter, why: Error) -> Ending
    ensures { result ≡ Ending.Unreadable }
{
    progress.end();
    fail(progress.errors, "standard input", why);
    Ending::Unreadable
}

// Ends where lines could not be written, and says why.
pub(crate) fn unwritable(progress: Counter, why: Error) -> Ending
    ensures { result ≡ Ending.Unwritable }
{
    progress.end();
    fail(progress.errors, "standard output", why);
    Ending::Unwritable
}

// Ends after too many turns, and says so.
pub(crate) fn too_many(progress: Counter) -> Ending
    ensures { result ≡ Ending.TooMany }
{
    progress.end();
    let _ = eprintln!(progress.errors; "fillin: too many records");
    Ending::TooMany
}
