// Runs the published vectors of SplitMix64 and Xoshiro256**, then draws from three seeds, by value and by the call that a generator is lent to. What it prints is
// compared with the file stdout.
#![tactic(auto)]

ghost use Rattle.std.specs.Prelude.{◌≡◌};
ghost use Rattle.sampling_generator.specs.Random.{word_of, next_of, draw_of};

use sampling_generator::{DeterministicRng, Drawn, draw};
use test_numbers::{bits, show_line};

// The first n words of SplitMix64 from a seed.
fn split_mix(rt: &impl Print, seed: u64, n: u32) {
    let mut state = seed;
    for i in 0..n {
        state = DeterministicRng::split_mix_next(state);
        show_line(rt, DeterministicRng::split_mix_word(state));
    }
}

// The next n words of a generator.
fn words(rt: &impl Print, start: DeterministicRng, n: u32) {
    let mut rng = start;
    for i in 0..n {
        let next = rng.next_u64();
        show_line(rt, next.word);
        rng = next.rng;
    }
}

// The next draw, by the call that a generator is lent to.
fn draw_lent(rng: DeterministicRng) -> Drawn
    ensures { (result.value ≡ draw_of (word_of rng)) × (result.rng ≡ next_of rng) }
{
    let mut lent = rng;
    let value = draw(&mut lent);
    Drawn { value, rng: lent }
}

// The four state words that a seed gives, and the bits of the next n draws.
fn draws(rt: &impl Print, seed: u64, n: u32) {
    let start = DeterministicRng::seed_from_u64(seed);
    show_line(rt, start.s0);
    show_line(rt, start.s1);
    show_line(rt, start.s2);
    show_line(rt, start.s3);
    let mut rng = start;
    for i in 0..n {
        let drawn = rng.next_f64();
        show_line(rt, bits(drawn.value));
        rng = drawn.rng;
    }
}

// The bits of the next n draws of the generator that a seed gives, lent for each.
fn draws_lent(rt: &impl Print, seed: u64, n: u32) {
    let mut rng = DeterministicRng::seed_from_u64(seed);
    for i in 0..n {
        let drawn = draw_lent(rng);
        show_line(rt, bits(drawn.value));
        rng = drawn.rng;
    }
}

fn main(rt: HostRuntime) {
    split_mix(&rt, 1477776061723855037, 50);
    words(
        &rt,
        DeterministicRng {
            s0: 1,
            s1: 2,
            s2: 3,
            s3: 4,
        },
        10,
    );
    draws(&rt, 0, 100);
    draws(&rt, 1, 100);
    draws(&rt, 0xffff_ffff_ffff_ffff, 100);
    draws_lent(&rt, 0, 100);
    draws_lent(&rt, 1, 100);
    draws_lent(&rt, 0xffff_ffff_ffff_ffff, 100);
}
