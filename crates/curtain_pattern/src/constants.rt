// The constants of the source's module `curtain`, as it writes them.
pub const PI: f32 = 3.1415926;

// The speed of light, in metres × MHz.
pub const VOFL: f32 = 299.79246;

pub const PI2: f32 = 6.283185307;

pub(crate) const PIO2: f32 = 1.570796326;

// Degrees to radians.
pub const D2R: f32 = 0.01745329251;
