#![tactic(auto)]

// The words beside a plate, as SVG (specs/Words.antt): the antenna's name, MHz and elevation (`head_text`),
// the four winds (`winds_text`), the peak's dot, number and azimuth with front-to-back (`dot_text`,
// `foot_text`), what grey and dashes are (`fold_text`, `dashed_text`), a row without a level (`all_floor_text`,
// `silence_text`), and the sentence of a refusal (`sentence_of`).
ghost use Rattle.std.specs.Prelude.{◌≡◌, ◌+◌, ◌≤◌, length};
ghost use Rattle.words.specs.Writing.{Put};
ghost use Rattle.captions.specs.Words.{name_of, winds_text, head_text, dot_text, foot_text, fold_text, dashed_text, all_floor_text, silence_text, shown_where, mast_numbered, mast_of, sentence_of};

use compass::Point;
use figures::push_difference;
use labels::{push_reading, push_whole};
use words::page::Page;

// What stands above a plate.
#[derive(Clone, Copy)]
pub struct Heading {
    // the type, 1 to 9; any other number is the curtain
    pub antenna: u32,
    // in raised hundredths
    pub mhz: u32,
    // in degrees
    pub elevation: u32,
}

#[tactic(auto, unfolding(crate::specs::Words::name_of, crate::specs::Words::beside, quoted::specs::Quoted::quoted))]
fn name(antenna: u32) -> &'static [u8]
    ensures { (result.now ≡ name_of antenna) × (length result.now ≤ 60) }
{
    match antenna {
        1 => b"multiband aperiodic reflector dipole array",
        2 => b"dual-band centre-fed tuned reflector dipole array",
        3 => b"dual-band end-fed tuned reflector dipole array",
        4 => b"tropical antenna",
        5 => b"horizontal log-periodic",
        6 => b"vertical log-periodic",
        7 => b"horizontal rhombic",
        8 => b"quadrant antenna",
        9 => b"cross-dipole antenna",
        _ => b"NTIA curtain array",
    }
}

// Inner step: the antenna's name.
#[tactic(auto, using(words::proofs::Writing::shorter))]
pub fn push_name<const N: usize>(page: &mut Page<N>, antenna: u32)
    requires { length page.old + 60 ≤ N }
    ensures { Put 60 page.old (name_of antenna) page.new }
{
    page.push_bytes(name(antenna));
}

// Inner step: the four winds.
pub fn push_winds<const N: usize>(page: &mut Page<N>)
    requires { length page.old + 240 ≤ N }
    ensures { Put 240 page.old winds_text page.new }
{
    page.push_bytes(
        b"<text x='4000' y='800' text-anchor='middle'>0&#176;</text>\n<text x='7180' y='4085'>90&#176;</text>\n",
    );
    page.push_bytes(
        b"<text x='3880' y='7370' text-anchor='end'>180&#176;</text>\n<text x='820' y='4085' text-anchor='end'>270&#176;</text>\n",
    );
}

// Inner step: the name, MHz and elevation.
pub fn push_head<const N: usize>(page: &mut Page<N>, h: Heading)
    requires { length page.old + 260 ≤ N }
    ensures { Put 260 page.old (head_text h) page.new }
{
    page.push_bytes(b"<text x='150' y='330' font-size='290'>");
    push_name(page, h.antenna);
    push_reading(page, b"</text>\n<text x='150' y='680'>", h.mhz);
    push_whole(
        page,
        b" MHz</text>\n<text x='7850' y='680' text-anchor='end'>elevation ",
        h.elevation,
    );
    page.push_bytes(b"&#176;</text>\n");
}

// Inner step: a dot on the peak.
pub fn push_dot<const N: usize>(page: &mut Page<N>, p: Point)
    requires { length page.old + 60 ≤ N }
    ensures { Put 60 page.old (dot_text p) page.new }
{
    push_whole(page, b"<circle cx='", p.x);
    push_whole(page, b"' cy='", p.y);
    page.push_bytes(b"' r='90'/>\n");
}

// Inner step: the peak, and front-to-back, the number in front less the one behind.
pub fn push_foot<const N: usize>(
    page: &mut Page<N>,
    peak: u32,
    azimuth: u32,
    front: u32,
    behind: u32,
)
    requires { length page.old + 200 ≤ N }
    ensures { Put 200 page.old (foot_text peak azimuth front behind) page.new }
{
    push_reading(page, b"<text x='150' y='7820'>peak ", peak);
    push_whole(page, b" dBi at ", azimuth);
    push_difference(
        page,
        b"&#176;</text>\n<text x='7850' y='7820' text-anchor='end'>front-to-back ",
        front,
        behind,
    );
    page.push_bytes(b" dB</text>\n");
}

// Inner step: words where something is so.
#[tactic(auto, using(words::proofs::Writing::put_none))]
pub fn push_where<const N: usize>(page: &mut Page<N>, so: bool, words: &[u8])
    requires { length page.old + length words.now ≤ N }
    ensures { Put (length words.now) page.old (shown_where so words.now) page.new }
{
    if so {
        page.push_bytes(words);
    }
}

// Inner step: what grey is, where something is folded over.
#[tactic(auto, using(words::proofs::Writing::at_most), unfolding(crate::specs::Words::fold_text, quoted::specs::Quoted::quoted))]
pub fn push_fold_key<const N: usize>(page: &mut Page<N>, fold: bool)
    requires { length page.old + 70 ≤ N }
    ensures { Put 70 page.old (shown_where fold fold_text) page.new }
{
    push_where(
        page,
        fold,
        b"<text x='7850' y='7480' text-anchor='end'>grey: folded over</text>\n",
    );
}

// Inner step: what dashes are, where there are floors.
#[tactic(auto, using(words::proofs::Writing::at_most), unfolding(crate::specs::Words::dashed_text, quoted::specs::Quoted::quoted))]
pub fn push_dashed_key<const N: usize>(page: &mut Page<N>, floors: bool)
    requires { length page.old + 50 ≤ N }
    ensures { Put 50 page.old (shown_where floors dashed_text) page.new }
{
    push_where(
        page,
        floors,
        b"<text x='150' y='7480'>dashed: floor</text>\n",
    );
}

// Inner step: a row whose peak is a floor.
#[tactic(auto, using(words::proofs::Writing::at_most), unfolding(crate::specs::Words::all_floor_text, quoted::specs::Quoted::quoted))]
pub fn push_all_floor<const N: usize>(page: &mut Page<N>)
    requires { length page.old + 70 ≤ N }
    ensures { Put 70 page.old all_floor_text page.new }
{
    page.push_bytes(b"<text x='150' y='7820'>floor all round: -30 dBi or less</text>\n");
}

// Inner step: a silence.
#[tactic(auto, using(words::proofs::Writing::at_most), unfolding(crate::specs::Words::silence_text, quoted::specs::Quoted::quoted))]
pub fn push_silence<const N: usize>(page: &mut Page<N>)
    requires { length page.old + 150 ≤ N }
    ensures { Put 150 page.old silence_text page.new }
{
    page.push_bytes(
        b"<text x='4000' y='2800' font-size='600' text-anchor='middle' stroke='#fff' stroke-width='160' paint-order='stroke'>silence</text>\n",
    );
}

// Which of two masts a refusal is of.
#[derive(Clone, Copy, Debug, PartialEq, Eq)]
pub enum Mast {
    A,
    B,
}

// Inner step: which mast a number is, 1 the first, 2 the second, any other none.
#[tactic(auto, unfolding(crate::specs::Words::mast_numbered))]
pub fn mast_numbered(number: u8) -> Option<Mast>
    ensures { result ≡ mast_numbered number }
{
    match number {
        1 => Some(Mast::A),
        2 => Some(Mast::B),
        _ => None,
    }
}

#[tactic(auto, unfolding(crate::specs::Words::mast_of, quoted::specs::Quoted::quoted))]
fn name_of_mast(mast: Option<Mast>) -> &'static [u8]
    ensures { (result.now ≡ mast_of mast) × (length result.now ≤ 3) }
{
    match mast {
        Some(Mast::A) => b"A: ",
        Some(Mast::B) => b"B: ",
        None => b"",
    }
}

// Inner step: which of two masts a refusal is of, where there are two.
#[tactic(auto, using(words::proofs::Writing::shorter))]
pub fn push_mast<const N: usize>(page: &mut Page<N>, mast: Option<Mast>)
    requires { length page.old + 3 ≤ N }
    ensures { Put 3 page.old (mast_of mast) page.new }
{
    page.push_bytes(name_of_mast(mast));
}

#[tactic(auto, unfolding(crate::specs::Words::sentence_of, crate::specs::Words::beside, quoted::specs::Quoted::quoted))]
fn sentence(number: u32) -> &'static [u8]
    ensures { (result.now ≡ sentence_of number) × (length result.now ≤ 60) }
{
    match number {
        1 => b"this is no station of 237 bytes, and no good card",
        2 => b"a number of the station isn't finite",
        3 => b"the type is not 1 to 9, nor is this a curtain",
        4 => b"there is no such mode of the maximum gain",
        5 => b"the MHz or the design MHz is under 1, or 31 or more",
        6 => b"dipoles are not 0 to 64, or elements not 2 to 30",
        7 => b"elevation not a whole 0 to 90, or wrong slew or start",
        8 => b"the space for the answer is too short",
        9 => b"a gain in the search isn't finite: is a size 0?",
        10 => b"a gain isn't finite",
        18 => b"a gain is beyond 1,000 dBi or -1,000 dBi",
        _ => b"",
    }
}

// Inner step: why a plate was refused, by the refusal's number; none but a plate's has words.
#[tactic(auto, using(words::proofs::Writing::shorter))]
pub fn push_sentence<const N: usize>(page: &mut Page<N>, number: u32)
    requires { length page.old + 60 ≤ N }
    ensures { Put 60 page.old (sentence_of number) page.new }
{
    page.push_bytes(sentence(number));
}
