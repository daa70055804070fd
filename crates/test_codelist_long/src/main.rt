// `codelist` on an input longer than its buffer: well-formed lines, more than one.
#![tactic(auto)]

fn main(rt: HostRuntime) {
    text_program::run(&rt);
}
