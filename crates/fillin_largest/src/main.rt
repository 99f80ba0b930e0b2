// `fillin` on the largest layer in Q4_K and in Q6_K, and on many windows.
#![tactic(auto)]

fn main(rt: HostRuntime) {
    fillin_loop::fill_in(fillin_loop::standard(&rt), rt.stderr());
}
