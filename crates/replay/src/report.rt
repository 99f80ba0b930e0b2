// What the replay prints. What standard output does not take is left out.
use replay_answers::Finding;

// The beginning of a call's line: its name.
pub fn print_name(rt: &impl Print, name: &[u8]) {
    let _ = rt.write_all(name);
}

// The rest of the line: how many answers were replayed, and how many of ours differ.
pub fn print_counts(rt: &impl Print, answers: u64, differ: u64) {
    let _ = println!(rt; ": {answers} answers, {differ} differ");
}

// Why the sample cannot be read on; nothing, where it was read to its end.
pub fn print_end(rt: &impl Print, finding: Finding, tag: u8, at: u64) {
    let _ = match finding {
        Finding::Unknown => println!(rt; "unknown tag {tag} at byte {at}"),
        Finding::Malformed => println!(rt; "malformed record at byte {at}"),
        Finding::Cut => println!(rt; "cut record at byte {at}"),
        _ => Ok(()),
    };
}
