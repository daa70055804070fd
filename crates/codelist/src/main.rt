// The program `codelist`: reads one line, writes the listing or the refusal.
#![tactic(auto)]

fn main(rt: HostRuntime) {
    text_program::run(&rt);
}
