// What the search finds.

// `gainorm`'s outputs: the pattern's maximum and where it is.
#[derive(Clone, Copy)]
pub struct Peak {
    pub z6: f32, // the largest relative gain; 0 is a silent antenna
    pub umax: f32, // its elevation
    pub vmax: f32, // its azimuth
}
