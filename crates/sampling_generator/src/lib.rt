// Document 01's generator: Xoshiro256** seeded by SplitMix64, over wrapping 64-bit words.
#![tactic(auto)]

ghost use Rattle.std.specs.Prelude.{◌≡◌, ◌+◌, ◌*◌, ◌%◌, ◌^◌, ◌<◌};
ghost use Rattle.sampling_generator.specs.Random.{shift_xor, split_mix_next, split_mix_word, seed_from_u64, word_of, next_of, draw_of};

// The low 64 bits of the product. Document 01, "Expected forms by place", asks for this helper by name.
pub fn wrapping_mul(a: u64, b: u64) -> u64
    ensures { result ≡ (a * b) % 2 ^ 64 }
{
    a.wrapping_mul(b)
}

// z ^ (z >> k)
fn shift_xor(z: u64, k: u32) -> u64
    requires { k < 64 }
    ensures { result ≡ shift_xor z k }
{
    z ^ (z >> k)
}

// The four state words of Xoshiro256**.
#[derive(Clone, Copy)]
pub struct DeterministicRng {
    pub s0: u64,
    pub s1: u64,
    pub s2: u64,
    pub s3: u64,
}

// A word, and the generator after it.
#[derive(Clone, Copy)]
pub struct Next {
    pub word: u64,
    pub rng: DeterministicRng,
}

// A draw from 0 up to 1, and the generator after it.
#[derive(Clone, Copy)]
pub struct Drawn {
    pub value: f64,
    pub rng: DeterministicRng,
}

impl DeterministicRng {
    const INCREMENT: u64 = 0x9e37_79b9_7f4a_7c15;

    const MULTIPLIER_1: u64 = 0xbf58_476d_1ce4_e5b9;

    const MULTIPLIER_2: u64 = 0x94d0_49bb_1331_11eb;

    // The next state of SplitMix64.
    #[tactic(auto, unfolding(crate::specs::Random::split_mix_next))]
    pub fn split_mix_next(state: u64) -> u64
        ensures { result ≡ split_mix_next state }
    {
        state.wrapping_add(Self::INCREMENT)
    }

    // The word that a state of SplitMix64 gives.
    #[tactic(auto, unfolding(crate::specs::Random::split_mix_word))]
    pub fn split_mix_word(state: u64) -> u64
        ensures { result ≡ split_mix_word state }
    {
        let z1 = wrapping_mul(shift_xor(state, 30), Self::MULTIPLIER_1);
        let z2 = wrapping_mul(shift_xor(z1, 27), Self::MULTIPLIER_2);
        shift_xor(z2, 31)
    }

    // The generator that a seed gives.
    pub fn seed_from_u64(seed: u64) -> Self
        ensures { result ≡ seed_from_u64 seed }
    {
        let a = Self::split_mix_next(seed);
        let b = Self::split_mix_next(a);
        let c = Self::split_mix_next(b);
        let d = Self::split_mix_next(c);
        Self {
            s0: Self::split_mix_word(a),
            s1: Self::split_mix_word(b),
            s2: Self::split_mix_word(c),
            s3: Self::split_mix_word(d),
        }
    }

    // The next word.
    pub fn next_u64(self) -> Next
        ensures { (result.word ≡ word_of self) × (result.rng ≡ next_of self) }
    {
        let word = wrapping_mul(wrapping_mul(self.s1, 5).rotate_left(7), 9);
        let t = self.s1 << 17;
        let s2 = self.s2 ^ self.s0;
        let s3 = self.s3 ^ self.s1;
        let s1 = self.s1 ^ s2;
        let s0 = self.s0 ^ s3;
        let rng = Self {
            s0,
            s1,
            s2: s2 ^ t,
            s3: s3.rotate_left(45),
        };
        Next { word, rng }
    }

    // The next draw.
    pub fn next_f64(self) -> Drawn
        ensures { (result.value ≡ draw_of (word_of self)) × (result.rng ≡ next_of self) }
    {
        let next = self.next_u64();
        let rng = next.rng;
        Drawn {
            value: std::num::nearest_u64_to_f64(next.word >> 12) / 4503599627370496.0,
            rng,
        }
    }
}

// The next draw of a generator that the caller lends, which it advances.
pub fn draw(rng: &mut DeterministicRng) -> f64
    ensures { (result ≡ draw_of (word_of rng.old)) × (rng.new ≡ next_of rng.old) }
{
    let d = DeterministicRng::next_f64(*rng);
    *rng = d.rng;
    d.value
}
