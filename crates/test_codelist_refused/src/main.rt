// `codelist` on a line that is refused: d is 4.
#![tactic(auto)]

fn main(rt: HostRuntime) {
    text_program::run(&rt);
}
