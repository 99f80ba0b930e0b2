// Answers the windows of a record file: document 01's `fillin`.
//
// Where an argument is given, the program ends with the status that says how the transcript ended, and else with 0.
#![tactic(auto)]

use std::env::FillError;
use std::process::ExitCode;
use std::rt::Env;

// Whether an argument is given, whatever its words are.
fn is_given(rt: &impl Env) -> bool {
    let mut first = [0u8; 1];
    !matches!(rt.arg(1, &mut first), Err(FillError::NotPresent))
}

fn main(rt: HostRuntime) -> ExitCode {
    let ending = fillin_loop::fill_in(fillin_loop::standard(&rt), rt.stderr());
    if is_given(&rt) {
        ExitCode::from(ending.status() as u8)
    } else {
        ExitCode::SUCCESS
    }
}
