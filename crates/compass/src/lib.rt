#![tactic(auto)]

// Whole coordinates on a plate: the point at an azimuth and a distance from the centre, `point_of`
// (specs/Compass.antt), by document 01's whole-number sine of whole degrees. North is up and azimuths
// go clockwise, on a square of 8,000 whose centre is 4,000 from every side. The points of the four
// winds lie on the axes (`north`, `east`, `south`, `west`), an azimuth and its mirror have one height
// and stand as far to either side (`mirrored`), and no point leaves the circle's square (`within`;
// proofs/Laws.antt).
ghost use Rattle.std.specs.Prelude.{◌≡◌, ◌≤◌};
ghost use Rattle.compass.specs.Compass.{folded_of, sine_size, part_of, rises_at, x_of, y_of, point_of};

#[derive(Clone, Copy)]
pub struct Point {
    pub x: u32,
    pub y: u32,
}

// The sine of 0 to 90 degrees in units of 2^-30.
const SINES: [u32; 91] = [
    0, 18739379, 37473049, 56195305, 74900442, 93582766, 112236582, 130856211, 149435979,
    167970228, 186453311, 204879598, 223243478, 241539355, 259761657, 277904835, 295963357,
    313931727, 331804471, 349576144, 367241332, 384794656, 402230766, 419544354, 436730145,
    453782902, 470697434, 487468587, 504091252, 520560366, 536870912, 553017921, 568996477,
    584801710, 600428807, 615873009, 631129609, 646193960, 661061475, 675727624, 690187941,
    704438018, 718473518, 732290164, 745883746, 759250125, 772385230, 785285056, 797945680,
    810363242, 822533958, 834454122, 846120104, 857528349, 868675384, 879557810, 890172316,
    900515666, 910584710, 920376381, 929887696, 939115759, 948057759, 956710970, 965072759,
    973140576, 980911966, 988384560, 995556083, 1002424350, 1008987268, 1015242840, 1021189159,
    1026824413, 1032146887, 1037154957, 1041847104, 1046221891, 1050277989, 1054014162, 1057429273,
    1060522280, 1063292243, 1065738316, 1067859754, 1069655913, 1071126243, 1072270299, 1073087729,
    1073578289, 1073741824,
];

// The degrees from 0 to 90 whose sine is as large as that of v degrees.
#[tactic(auto, unfolding(crate::specs::Compass::folded_of))]
fn folded(v: u32) -> usize
    ensures { (result ≡ folded_of v) × (result ≤ 90) }
{
    let w = v % 180;
    if 90 < w {
        return (180 - w) as usize;
    }
    w as usize
}

#[tactic(auto, using(crate::proofs::Sines::sines_are), unfolding(crate::specs::Compass::sine_size))]
fn sine_size(v: u32) -> u32
    ensures { result ≡ sine_size v }
{
    SINES[folded(v)]
}

// r times the size of the sine, rounded.
fn part(v: u32, r: u32) -> u32
    requires { r ≤ 4000 }
    ensures { (result ≡ part_of v r) × (result ≤ r) }
{
    let product = (r as u64) * (sine_size(v) as u64);
    ((product + 0x2000_0000) / 0x4000_0000) as u32
}

#[tactic(auto, unfolding(crate::specs::Compass::rises_at))]
fn rises(v: u32) -> bool
    ensures { result ≡ rises_at v }
{
    v % 360 < 180
}

#[tactic(auto, unfolding(crate::specs::Compass::x_of))]
fn across(v: u32, r: u32) -> u32
    requires { r ≤ 4000 }
    ensures { result ≡ x_of v r }
{
    let k = part(v, r);
    if rises(v) {
        return 4000 + k;
    }
    4000 - k
}

#[tactic(auto, unfolding(crate::specs::Compass::y_of))]
fn down(v: u32, r: u32) -> u32
    requires { (v ≤ 360) × (r ≤ 4000) }
    ensures { result ≡ y_of v r }
{
    let k = part(v + 90, r);
    if rises(v + 90) {
        return 4000 - k;
    }
    4000 + k
}

// Inner step: the point at azimuth v, 360 being 0 again, at the distance r.
#[tactic(auto, unfolding(crate::specs::Compass::point_of))]
pub fn point_at(v: u32, r: u32) -> Point
    requires { (v ≤ 360) × (r ≤ 4000) }
    ensures { result ≡ point_of v r }
{
    Point {
        x: across(v, r),
        y: down(v, r),
    }
}
