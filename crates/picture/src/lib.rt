#![tactic(auto)]

// A plate as a picture: SVG text of a row in hundredths, 800 wide and high, north up, black on white. It
// has rings every 10 dB (crate `rings`), the curve with its floors apart (`curve`), and the words beside
// it (`captions`); a silence is an empty plate with the word, a refusal its sentence. The text is
// `picture_in` and `refusal_in` (specs/Picture.antt), for any numbers. What is told is the row's: the peak is
// its greatest number, at the azimuth told, with the dot on the curve there (`told`, proofs/Laws.antt).
ghost use Rattle.std.specs.Prelude.{◌+◌, ◌≤◌, ◌<◌, ◌≡◌, length, take, map};
ghost use Rattle.answers.specs.Outcome.{number};
ghost use Rattle.words.specs.Writing.{Put, Wrote};
ghost use Rattle.dial.specs.Kinds.{coded};
ghost use Rattle.dial.specs.Scale.{peak_azimuth, peak_of};
ghost use Rattle.captions.specs.Words.{mast_numbered};
ghost use Rattle.picture.specs.Picture.{open_text, beside_text, peak_text, told_text, drawn_text, silent_text, body_text, picture_of, picture_in, refusal_of, refusal_in};

use answers::{Kind, Refusal};
use captions::{
    Heading, Mast, mast_numbered, push_all_floor, push_dashed_key, push_dot, push_fold_key,
    push_foot, push_head, push_mast, push_sentence, push_silence, push_winds,
};
use compass::point_at;
use curve::{has_floor, push_curve};
use dial::{Row, coded_row, peak_azimuth, radius};
use figures::behind;
use labels::push_whole;
use rings::{push_labels, push_scale, stands_within};
use words::page::{Page, put_page};

// A row with its peak, which is at most 1,000 dBi.
#[derive(Clone, Copy)]
struct Plate<'a> {
    row: &'a Row,
    // whether what the mirror law folds over is shown apart
    fold: bool,
    heading: Heading,
    azimuth: usize,
    peak: u32,
    ghost whole_turn: { azimuth < 360 },
    ghost spanned: { peak ≤ 200000 },
    ghost place: { azimuth ≡ peak_azimuth row.now.numbers },
    ghost number: { peak ≡ peak_of row.now.numbers },
}

fn push_open<const N: usize>(page: &mut Page<N>)
    requires { length page.old + 200 ≤ N }
    ensures { Put 200 page.old open_text page.new }
{
    page.push_bytes(
        b"<svg xmlns='http://www.w3.org/2000/svg' width='800' height='800' viewBox='0 0 8000 8000' font-family='sans-serif' font-size='240'>\n",
    );
    page.push_bytes(b"<rect width='8000' height='8000' fill='#fff'/>\n");
}

impl Plate<'_> {
    // The labels of the rings, the winds and the head.
    #[tactic(auto, unfolding(crate::specs::Picture::beside_text))]
    fn push_beside<const N: usize>(self, page: &mut Page<N>)
        requires { length page.old + 1010 ≤ N }
        ensures { Put 1010 page.old (beside_text self.entry.row.now.numbers self.entry.peak self.entry.heading) page.new }
    {
        push_labels(page, stands_within(&self.row.numbers), self.peak);
        push_winds(page);
        push_head(page, self.heading);
    }

    // The peak with its dot and its words, and what dashes are.
    #[tactic(auto, unfolding(crate::specs::Picture::peak_text))]
    fn push_peak<const N: usize>(self, page: &mut Page<N>)
        requires { length page.old + 310 ≤ N }
        ensures { Put 310 page.old (peak_text self.entry.row.now.numbers self.entry.row.now.kinds self.entry.azimuth self.entry.peak) page.new }
    {
        let azimuth = self.azimuth as u32;
        let back = self.row.numbers[behind(&self.row.numbers)];
        push_dashed_key(page, has_floor(&self.row.kinds));
        push_dot(page, point_at(azimuth, radius(self.peak, self.peak)));
        push_foot(page, self.peak, azimuth, self.row.numbers[0], back);
    }

    // The peak, or that it is a floor.
    #[tactic(auto, using(dial::proofs::OtherKinds::no_floor), unfolding(crate::specs::Picture::told_text))]
    fn push_told<const N: usize>(self, page: &mut Page<N>)
        requires { length page.old + 310 ≤ N }
        ensures { Put 310 page.old (told_text self.entry.row.now.numbers self.entry.row.now.kinds self.entry.azimuth self.entry.peak) page.new }
    {
        match self.row.kinds[self.azimuth] {
            Kind::Floor => push_all_floor(page),
            _ => self.push_peak(page),
        }
    }

    // The curve, and all words.
    #[tactic(auto, unfolding(crate::specs::Picture::drawn_text))]
    fn push_drawn<const N: usize>(self, page: &mut Page<N>)
        requires { length page.old + 53790 ≤ N }
        ensures { Put 53790 page.old (drawn_text self.entry.row.now.numbers self.entry.row.now.kinds self.entry.fold self.entry.azimuth self.entry.peak self.entry.heading) page.new }
    {
        push_curve(page, self.row, self.fold, self.peak);
        self.push_beside(page);
        push_fold_key(page, self.fold);
        self.push_told(page);
    }

    // An empty plate with the word.
    #[tactic(auto, unfolding(crate::specs::Picture::silent_text))]
    fn push_silent<const N: usize>(self, page: &mut Page<N>)
        requires { length page.old + 1160 ≤ N }
        ensures { Put 1160 page.old (silent_text self.entry.row.now.numbers self.entry.peak self.entry.heading) page.new }
    {
        self.push_beside(page);
        push_silence(page);
    }

    // What stands on the plate.
    #[tactic(auto, using(dial::proofs::OtherKinds::no_silence), unfolding(crate::specs::Picture::body_text))]
    fn push_body<const N: usize>(self, page: &mut Page<N>)
        requires { length page.old + 53790 ≤ N }
        ensures { Put 53790 page.old (body_text self.entry.row.now.numbers self.entry.row.now.kinds self.entry.fold self.entry.azimuth self.entry.peak self.entry.heading) page.new }
    {
        match self.row.kinds[0] {
            Kind::Silence => self.push_silent(page),
            _ => self.push_drawn(page),
        }
    }

    // The whole picture.
    #[tactic(auto, unfolding(crate::specs::Picture::picture_of, quoted::specs::Quoted::quoted))]
    fn push_picture<const N: usize>(self, page: &mut Page<N>)
        requires { length page.old + 54500 ≤ N }
        ensures { Put 54500 page.old (picture_of self.entry.row.now.numbers self.entry.row.now.kinds self.entry.fold self.entry.heading) page.new }
    {
        push_open(page);
        push_scale(page, self.peak);
        self.push_body(page);
        page.push_bytes(b"</svg>\n");
    }
}

// Writes the picture of a row from the buffer's start on, and returns its length. `fold` shows apart what
// the mirror law folds over. A buffer of under 65,536 bytes gets nothing, nor does a row whose peak is
// over 1,000 dBi.
#[tactic(auto, using(words::proofs::Writing::wrote_none), unfolding(crate::specs::Picture::picture_in, dial::specs::Scale::peak_of))]
pub fn picture_of_row(row: &Row, fold: bool, heading: Heading, out: &mut [u8]) -> usize
    ensures text { Wrote out.old 0 (picture_in (length out.old) row.now.numbers row.now.kinds fold heading) out.new result }
    // what a caller needs to lend the text on, as `&out[..r]`
    ensures within { (result ≤ length out.new) × (result ≡ length (take result out.new)) }
{
    if out.len() < 65536 {
        return 0;
    }
    let azimuth = peak_azimuth(&row.numbers);
    let peak = row.numbers[azimuth];
    if 200000 < peak {
        return 0;
    }
    let plate = Plate {
        row,
        fold,
        heading,
        azimuth,
        peak,
    };
    let mut page: Page<54500> = Page::new();
    plate.push_picture(&mut page);
    put_page(&page, out)
}

// The same of a row's numbers, in raised hundredths of dBi, and its kinds by their codes: 0 a level, 1 a
// floor, more a silence.
pub fn picture(
    numbers: &[u32; 360],
    kinds: &[u8; 360],
    fold: bool,
    h: Heading,
    out: &mut [u8],
) -> usize
    ensures text { Wrote out.old 0 (picture_in (length out.old) numbers.now (map coded kinds.now) fold h) out.new result }
    ensures within { (result ≤ length out.new) × (result ≡ length (take result out.new)) }
{
    picture_of_row(&coded_row(numbers, kinds), fold, h, out)
}

// The sentence of a refusal by its number, of one of two masts where there are two.
fn push_refusal<const N: usize>(page: &mut Page<N>, mast: Option<Mast>, number: u32)
    requires { length page.old + 500 ≤ N }
    ensures { Put 500 page.old (refusal_of mast number) page.new }
{
    push_open(page);
    page.push_bytes(b"<text x='4000' y='3700' font-size='600' text-anchor='middle'>");
    push_mast(page, mast);
    push_whole(page, b"refused ", number);
    page.push_bytes(b"</text>\n<text x='4000' y='4300' font-size='280' text-anchor='middle'>");
    push_sentence(page, number);
    page.push_bytes(b"</text>\n</svg>\n");
}

#[tactic(auto, using(words::proofs::Writing::wrote_none), unfolding(crate::specs::Picture::refusal_in))]
fn put_refusal(mast: Option<Mast>, number: u32, out: &mut [u8]) -> usize
    ensures text { Wrote out.old 0 (refusal_in (length out.old) mast number) out.new result }
    ensures within { (result ≤ length out.new) × (result ≡ length (take result out.new)) }
{
    if out.len() < 65536 {
        return 0;
    }
    let mut page: Page<500> = Page::new();
    push_refusal(&mut page, mast, number);
    put_page(&page, out)
}

// Writes the picture of a refusal, of one of two masts where there are two, from the buffer's start on,
// and returns its length. A buffer of under 65,536 bytes gets nothing.
pub fn refusal_drawn(mast: Option<Mast>, refusal: Refusal, out: &mut [u8]) -> usize
    ensures text { Wrote out.old 0 (refusal_in (length out.old) mast (number refusal)) out.new result }
    ensures within { (result ≤ length out.new) × (result ≡ length (take result out.new)) }
{
    put_refusal(mast, u8::from(refusal) as u32, out)
}

// The same by the refusal's number, any at all, and the mast's: 1 `A`, 2 `B`, any other none.
pub fn refusal_picture(mast: u8, number: u32, out: &mut [u8]) -> usize
    ensures text { Wrote out.old 0 (refusal_in (length out.old) (mast_numbered mast) number) out.new result }
    ensures within { (result ≤ length out.new) × (result ≡ length (take result out.new)) }
{
    put_refusal(mast_numbered(mast), number, out)
}
