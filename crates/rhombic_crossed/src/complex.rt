// Complex numbers, as the patterns of types 7, 8 and 9 combine them.
ghost use Rattle.std.specs.Prelude.{◌≡◌};
ghost use Rattle.rhombic_crossed.specs.Complex.{times, plus, scaled, power_of};

use std::ops::{Add, Mul};

#[derive(Clone, Copy)]
pub struct Complex {
    pub re: f32,
    pub im: f32,
}

impl Add for Complex {
    type Output = Complex;

    ghost add_gives = { λ p q sum. sum ≡ plus p q };

    #[tactic(auto, unfolding(crate::specs::Complex::plus))]
    fn add(self, q: Complex) -> Complex {
        Complex {
            re: self.re + q.re,
            im: self.im + q.im,
        }
    }
}

impl Mul for Complex {
    type Output = Complex;

    ghost mul_gives = { λ p q product. product ≡ times p q };

    #[tactic(auto, unfolding(crate::specs::Complex::times))]
    fn mul(self, q: Complex) -> Complex {
        Complex {
            re: self.re * q.re - self.im * q.im,
            im: self.re * q.im + self.im * q.re,
        }
    }
}

impl Mul<Complex> for f32 {
    type Output = Complex;

    ghost mul_gives = { λ k p product. product ≡ scaled k p };

    #[tactic(auto, unfolding(crate::specs::Complex::scaled))]
    fn mul(self, p: Complex) -> Complex {
        Complex {
            re: self * p.re,
            im: self * p.im,
        }
    }
}

impl Complex {
    // The square of its size.
    #[tactic(auto, unfolding(crate::specs::Complex::power_of))]
    pub fn power(self) -> f32
        ensures { result ≡ power_of self }
    {
        self.re * self.re + self.im * self.im
    }
}
