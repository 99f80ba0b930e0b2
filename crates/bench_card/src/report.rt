// What the bench card prints. What standard output does not take is left out.
ghost use Rattle.std.specs.Prelude.{◌≡◌, cond, ◌+◌, ◌<◌, ◌^◌};

// The line of a row; how many are wrong then, of which `wrong` are before it.
pub fn judged(rt: &impl Print, name: &[u8], number: u64, right: bool, wrong: u64) -> u64
    requires { wrong + 1 < 2 ^ 64 }
    ensures { result ≡ cond right wrong (wrong + 1) }
{
    let _ = rt.write_all(name);
    if right {
        let _ = println!(rt; "{number}: ok");
        return wrong;
    }
    let _ = println!(rt; "{number}: WRONG");
    wrong + 1
}

// The last line: how many rows there are, and how many of them are wrong.
pub fn print_counts(rt: &impl Print, rows: u64, name: &[u8], wrong: u64) {
    let _ = print!(rt; "{rows}");
    let _ = rt.write_all(name);
    let _ = println!(rt; "{wrong} wrong");
}
