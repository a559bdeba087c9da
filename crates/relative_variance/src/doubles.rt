// The doubles of a variance: each operation is rounded once, in the order written.
ghost use Rattle.std.specs.Prelude.{◌≤◌, ◌<◌, suc, ◌≡◌, ◌++◌, pos, nat_abs, length, get_or, take, drop};
ghost use Rattle.std.specs.Float.{binary64};
ghost use Rattle.std.specs.Float.Ieee.{add, sub, mul};
ghost use Rattle.std.specs.Float.Ieee.Scale.{finite};
ghost use Rattle.relative_errors.specs.Relative.{one, squared, sum_to, next_theta, thetas, thetas_finite};
ghost use Rattle.relative_errors.specs.Facts.{means_in, squares_in, square_list, Small, SmallMeans};

// μ × μ or c × c, from a whole number of 65,536ths.
fn square(n: i64) -> f64
    requires { nat_abs n ≤ 9007199254740992 }
    ensures { result ≡ squared n }
{
    let x = (n as f64) / 65536.0;
    x * x
}

// Neither a NaN nor an infinity: of those x − x is a NaN.
pub fn is_finite(x: f64) -> bool
    ensures { result ≡ finite x }
{
    x - x == 0.0
}

// c × c of 1 to h, so that each is computed once.
pub fn squares(c: &[u64; 512], h: usize, squared: &mut [f64; 512])
    requires { (h ≤ 512) × (h ≤ length squared.old) × Small c.now h }
    ensures { squared.new ≡ square_list c.now h ++ drop h squared.old }
{
    for i in 0..h {
        squared[i] = square(c[i] as i64);
    }
}

// S of the horizon i + 1, from the θ of 1 to i. It is not tested: where S is not finite at some j, θ is not.
fn sum(c2: &[f64; 512], own: &[f64; 512], i: usize) -> f64
    requires { i < 512 }
    ensures { result ≡ sum_to (squares_in c2.now) own.now (suc i) i }
{
    let mut s = 0.0;
    for j in 0..i {
        s += c2[j] * own[i - 1 - j];
    }
    s
}

// θ of i + 1 from those of 1 to i.
fn theta(mu: &[i64; 512], c2: &[f64; 512], own: &[f64; 512], i: usize, sigma2: f64) -> f64
    requires { (0 < i) × (i < 512) × (nat_abs (get_or mu.now i (pos 0)) ≤ 9007199254740992) }
    ensures { result ≡ next_theta (means_in mu.now) (squares_in c2.now) sigma2 own.now i }
{
    let s = sum(c2, own, i);
    square(mu[i]) + sigma2 * s
}

// θ of 1 to h; whether they and each S are finite.
pub fn fill(mu: &[i64; 512], c2: &[f64; 512], h: usize, sigma2: f64, own: &mut [f64; 512]) -> bool
    requires { (0 < h) × (h ≤ 512) × (h ≤ length own.old) × SmallMeans mu.now h }
    ensures answer { result ≡ thetas_finite (means_in mu.now) (squares_in c2.now) sigma2 h }
    ensures own { own.new ≡ thetas (means_in mu.now) (squares_in c2.now) sigma2 h ++ drop h own.old }
{
    let first = square(mu[0]);
    let mut sound = is_finite(first);
    own[0] = first;
    for i in 1..h {
        let t = theta(mu, c2, own, i, sigma2);
        own[i] = t;
        sound = sound & is_finite(t);
    }
    sound
}

// (1 + σ²) × θ − μ × μ
pub fn spread(m: i64, sigma2: f64, theta: f64) -> f64
    requires { nat_abs m ≤ 9007199254740992 }
    ensures { result ≡ sub binary64 (mul binary64 (add binary64 one sigma2) theta) (squared m) }
{
    (1.0 + sigma2) * theta - square(m)
}

// The first h doubles into a buffer.
pub fn copy(own: &[f64; 512], h: usize, thetas: &mut [f64])
    requires { (h ≤ 512) × (h ≤ length thetas.old) × (h ≤ length own.now) }
    ensures { thetas.new ≡ take h own.now ++ drop h thetas.old }
{
    thetas[..h].copy_from_slice(&own[..h]);
}
