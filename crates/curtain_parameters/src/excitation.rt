// What the stacks and the bays are fed with: the source's `IVMA` and `IPHASE`.
ghost use Rattle.std.specs.Prelude.{◌≡◌, ◌≤◌, ◌<◌};
ghost use Rattle.curtain_parameters.specs.Excitation as Excitation;

// `IVMA`: a row for each mode, a sign for each pair of stacks.
const IVMA: [[f32; 4]; 15] = [
    [1.0, 0.0, 0.0, 0.0],
    [0.0, 1.0, 0.0, 0.0],
    [0.0, 0.0, 1.0, 0.0],
    [1.0, 1.0, 0.0, 0.0],
    [1.0, 0.0, 1.0, 0.0],
    [0.0, 1.0, 1.0, 0.0],
    [1.0, -1.0, 0.0, 0.0],
    [1.0, 0.0, -1.0, 0.0],
    [0.0, 1.0, -1.0, 0.0],
    [1.0, 1.0, 1.0, 0.0],
    [1.0, 1.0, -1.0, 0.0],
    [1.0, -1.0, 1.0, 0.0],
    [1.0, -1.0, -1.0, 0.0],
    [1.0, 1.0, 1.0, 1.0],
    [1.0, 1.0, -1.0, -1.0],
];

// `stkrat`, of stack i.
pub(crate) fn stack_ratio(mode: usize, i: usize) -> f32
    requires { (1 ≤ mode) × (mode ≤ 15) × (i < 8) }
    ensures { result ≡ Excitation.stkrat mode i }
{
    IVMA[mode - 1][i / 2]
}

// `IPHASE`: a row for each slew step, the phases of the bays in degrees.
const IPHASE: [[u16; 14]; 8] = [
    [0, 0, 0, 0, 0, 0, 0, 0, 0, 0, 0, 0, 0, 0],
    [0, 0, 31, 31, 0, 77, 77, 109, 109, 0, 155, 155, 186, 186],
    [0, 47, 56, 103, 0, 139, 185, 195, 242, 0, 278, 324, 334, 381],
    [0, 47, 81, 128, 0, 200, 246, 281, 327, 0, 399, 446, 480, 527],
    [
        0, 47, 105, 152, 0, 260, 306, 365, 411, 0, 519, 566, 624, 671,
    ],
    [
        0, 47, 129, 176, 0, 318, 365, 447, 494, 0, 636, 683, 765, 812,
    ],
    [
        0, 90, 152, 242, 0, 375, 465, 527, 617, 0, 750, 840, 903, 993,
    ],
    [
        0, 90, 180, 270, 0, 444, 534, 624, 714, 0, 888, 978, 1068, 1158,
    ],
];

// The slew step, `kslew` - 1: one for each 4 degrees, at most 7.
#[tactic(auto, unfolding(crate::specs::Excitation::slew_step))]
pub(crate) fn slew_step(islew: i32) -> usize
    ensures value { result ≡ Excitation.slew_step islew }
    ensures upper_bound { result ≤ 7 }
{
    (islew.unsigned_abs() / 4).min(7) as usize
}

// The phase of bay i at a slew step.
#[tactic(auto, unfolding(crate::specs::Excitation::phase_at))]
fn phase_at(step: usize, i: usize) -> u16
    requires { (step ≤ 7) × (i < 14) }
    ensures { result ≡ Excitation.phase_at step i }
{
    IPHASE[step][i]
}

// `bayphs`, of bay i: positive for a slew below 0.
#[tactic(auto, unfolding(crate::specs::Excitation::bayphs))]
pub(crate) fn bay_phase(islew: i32, i: usize) -> f32
    requires { i < 14 }
    ensures { result ≡ Excitation.bayphs islew i }
{
    let phase = phase_at(slew_step(islew), i) as i32;
    if islew < 0 {
        return numeric::float::of_i32(phase);
    }
    numeric::float::of_i32(-phase)
}
