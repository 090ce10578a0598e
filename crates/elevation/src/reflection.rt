// `refcof`: the ground's reflection of a wave.
ghost use Rattle.std.specs.Prelude.{◌≡◌};
ghost use Rattle.elevation.specs.Reflection.{ref_cof};

// The reflection coefficients: vertical then horizontal, real and imaginary.
#[derive(Clone, Copy)]
pub struct Reflection {
    pub t1: f32,
    pub t2: f32,
    pub t3: f32,
    pub t4: f32,
}

// At the elevation whose sine and cosine are a0 and b0.
#[tactic(auto, unfolding(crate::specs::Reflection::ref_cof))]
pub fn refcof(a0: f32, b0: f32, d1: f32, e1: f32) -> Reflection
    ensures { result ≡ ref_cof a0 b0 d1 e1 }
{
    let c1 = e1 - b0 * b0;
    let c11 = root::sqrt(c1 * c1 + d1 * d1);
    let e2 = root::sqrt((c1 + c11).abs() / 2.0);
    let f2 = root::sqrt((-c1 + c11).abs() / 2.0);
    let rk1 = e1 * a0 - e2;
    let rl1 = rk1 + e2 * 2.0;
    let rm1 = d1 * a0 - f2;
    let rn1 = rm1 + f2 * 2.0;
    let rl1n = rl1 * rl1 + rn1 * rn1;
    let g1 = a0 - e2;
    let h2 = a0 + e2;
    let hn = h2 * h2 + f2 * f2;
    Reflection {
        t1: (rk1 * rl1 + rm1 * rn1) / rl1n,
        t2: (rk1 * rn1 - rm1 * rl1) / rl1n,
        t3: (g1 * h2 - f2 * f2) / hn,
        t4: (h2 * f2 + g1 * f2) / hn,
    }
}
