// The stand-in for ln of (1 - p) / p, each operation rounded once.
ghost use Rattle.std.specs.Prelude.{◌≡◌};
ghost use Rattle.std.specs.Float.{binary64};
ghost use Rattle.std.specs.Float.Ieee.{div};
ghost use Rattle.columns.specs.Places.{one};
ghost use Rattle.weights_recipe.specs.Constants.{thirty_five};
ghost use Rattle.weights_recipe.specs.Logarithm.{edge_weight, series};

const LN2: f64 = f64::from_bits(0x3fe6_2e42_fefa_39ef);

// h = h·z + 1/(2n+1) for n from 16 down to 0, from h = 1/35.
fn sum_series(z: f64) -> f64
    ensures { result ≡ series 17 z (div binary64 one thirty_five) }
{
    let mut h = 1.0 / 35.0;
    for n in (0..17u32).rev() {
        h = h * z + 1.0 / ((2 * n + 1) as f64);
    }
    h
}

// The weight of an edge with probability p that question 9 accepts, by at most 40 halvings. For any other p it ends too, after at most 64.
pub fn edge_weight(p: f64) -> f64
    ensures { result ≡ edge_weight p }
{
    if p == 0.0 {
        return 1.0 / 0.0;
    }
    let mut q = (1.0 - p) / p;
    let mut k: u32 = 0;
    // while: k, the number of halvings, is what the loop finds; a `for` would count the same number a second time.
    while k < 64 {
        if q < 2.0 {
            break;
        }
        q = q * 0.5;
        k += 1;
    }
    let s = (q - 1.0) / (q + 1.0);
    let h = sum_series(s * s);
    (k as f64) * LN2 + (2.0 * s) * h
}
