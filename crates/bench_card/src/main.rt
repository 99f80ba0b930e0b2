// Document 01's bench card, run: the rows of crates/bench_rows, asked of the compiled code, and the cases that are run
// only.
//
// A line says of each row, and then of each case by its n, whether what the call answered is what the card says. The
// last lines are of a row and cases with a wrong answer. Behind the rows, the cases and the wrong ones, a line counts
// them.
#![tactic(auto)]

mod report;
mod run_only;

use bench_rows::Row;

fn run_rows(rt: &impl Print) {
    let mut wrong: u64 = 0;
    for number in 1..13u64 {
        wrong = report::judged(rt, b"row ", number, bench_rows::row_holds(number), wrong);
    }
    report::print_counts(rt, 12, b" rows, ", wrong);
}

fn run_cases(rt: &impl Print, x: &[f32]) {
    let mut wrong: u64 = 0;
    let cases = [0usize, 1, 8_192, 8_193, 255, 256, 257];
    for (case, &n) in cases.iter().enumerate() {
        let sum = run_only::plain_sum(x, n);
        let right = if case < 4 {
            run_only::against_ones(x, n, 0, sum)
        } else if n <= 256 {
            run_only::against_one_block(x, n, 0, sum)
        } else {
            run_only::against_one_block(x, n, 3, sum)
        };
        wrong = report::judged(rt, b"run only ", n as u64, right, wrong);
    }
    report::print_counts(rt, 7, b" run only, ", wrong);
}

// A row of the card with another quant, and two cases with another sum and another number.
fn run_wrong(rt: &impl Print, x: &[f32]) {
    let row = bench_rows::holds(Row::Gives(0x3EFF_FFFF, 0));
    let mut wrong = report::judged(rt, b"wrong ", 1, row, 0);
    let sum = run_only::against_ones(x, 1, 0, 2.0);
    wrong = report::judged(rt, b"wrong ", 2, sum, wrong);
    let number = run_only::against_one_block(x, 257, 4, 0.0);
    wrong = report::judged(rt, b"wrong ", 3, number, wrong);
    report::print_counts(rt, 3, b" wrong on purpose, ", wrong);
}

fn main(rt: HostRuntime) {
    run_rows(&rt);
    let mut x = [0.0f32; run_only::MOST];
    run_only::fill(&mut x);
    run_cases(&rt, &x);
    run_wrong(&rt, &x);
}
