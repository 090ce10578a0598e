// The records that set-up, search and gain hand on by value.

// What `antinit2` sets: wave and ground for every type (`/general/`), the type's own numbers
// (`/cros/`), the direction of a boom or of a rhombic's legs (`/surf/`). A field is 0 for the types
// that its comment doesn't name.
#[derive(Clone, Copy)]
pub struct Constants {
    // the ground's complex permittivity, relative: the imaginary part, 18000 times the conductivity
    // in siemens a metre over the MHz
    pub d1: f32,
    // and the real part
    pub e1: f32,
    // radians a metre: 2 pi over the wavelength; the patterns of types 5 and 6 read it
    pub beta: f32,
    // the cosine of `pfr`, types 1 to 4; type 3 reads it
    pub cpfr: f32,
    // the cosine of `p11`, types 1 to 4, 8 and 9
    pub cp11: f32,
    // type 1's screen, by its wires' spacing and diameter and the frequency: the larger, the less
    // it reflects
    pub fr1: f32,
    // two things: the (lowest) dipole's height in design wavelengths (types 1 to 4, 8 and 9), and
    // twice the rhombic's height in radians (type 7)
    pub h1: f32,
    // half a design wavelength in radians, pi times operating over design frequency: from a dipole
    // to its neighbour (types 1 to 4, 8 and 9)
    pub pfr: f32,
    // half of `pfr`: a dipole's half length in radians (types 1 to 4, 8 and 9)
    pub p11: f32,
    // twice the distance from type 1's dipoles to its screen, in radians
    pub p11s: f32,
    // the reflector's current over the dipoles', types 2 and 3
    pub q2: f32,
    // how many dipoles a row has across the boresight, types 1 to 4 (type 3 counts half of them)
    pub r2: f32,
    // how many a stack has, types 1 to 3, or a row along the boresight, type 4
    pub r3: f32,
    // two things: the sine of the slew (types 1 to 4), and the rhombic's side in radians (type 7)
    pub sl: f32,
    // cosine and sine of the boom's slope (types 5 and 6), or of the rhombic's half angle (type 7)
    pub costh: f32,
    pub sinth: f32,
}

// `/logp/`: the elements of types 5 and 6, at 1 to 30; element 1 is the shortest. All others have
// 0 everywhere.
#[derive(Clone, Copy)]
pub struct Elements {
    // phase of the current, in degrees from that of the largest
    pub fi: [f32; 36],
    // current, by the largest, over the sine of the element's electrical length
    pub rim: [f32; 36],
    // metres along the ground from the apex: x is type 5's, y type 6's
    pub x: [f32; 36],
    pub y: [f32; 36],
    // the numbers of the active elements, at 1 to `nat`
    pub iek: [usize; 36],
    // half length in metres
    pub rl: [f32; 36],
    // height in metres
    pub h: [f32; 31],
    // how many are active
    pub nat: usize,
}

// `/trig/`: the sines, a, and cosines, b, of the whole degrees 0 to 90, with the source's own ends.
#[derive(Clone, Copy)]
pub struct Trig {
    pub a: [f32; 91],
    pub b: [f32; 91],
}

// `/warr/`: dipoles with their images in the ground, for each whole degree of elevation (types 1
// to 4, 8 and 9); the bare reflection coefficients in w3 to w6 (type 7).
#[derive(Clone, Copy)]
pub struct Ground {
    // the vertical field, real and imaginary
    pub w3: [f32; 91],
    pub w4: [f32; 91],
    // the horizontal field, real and imaginary
    pub w5: [f32; 91],
    pub w6: [f32; 91],
    // the vertical field with the image's other sign, real and imaginary; types 8 and 9 read it
    pub w9: [f32; 91],
    pub w10: [f32; 91],
}

// All that the relative gain reads, but for the lent table: the type, whether the truncated slew
// is not 0, and the constants and tables.
#[derive(Clone, Copy)]
pub struct Model {
    // the type by its number; a record that a caller kept in words may have any
    pub iant: u32,
    pub slewed: bool,
    pub constants: Constants,
    pub elements: Elements,
    pub trig: Trig,
    pub ground: Ground,
}

// A direction: sine and cosine of the elevation, a0 and b0, and of the azimuth, a1 and b1.
#[derive(Clone, Copy)]
pub struct Direction {
    pub a0: f32,
    pub b0: f32,
    pub a1: f32,
    pub b1: f32,
}

// `Ground` at one elevation.
#[derive(Clone, Copy)]
pub struct Factors {
    pub w3: f32,
    pub w4: f32,
    pub w5: f32,
    pub w6: f32,
    pub w9: f32,
    pub w10: f32,
}

// `/wwar/`: one log-periodic element with its image in the ground, at one elevation: the vertical
// field, ww1 and ww2, and type 5's horizontal one, ww3 and ww4.
#[derive(Clone, Copy)]
pub struct Entry {
    pub ww1: f32,
    pub ww2: f32,
    pub ww3: f32,
    pub ww4: f32,
}
