// `codelist` on an empty input.
#![tactic(auto)]

fn main(rt: HostRuntime) {
    text_program::run(&rt);
}
