// The lines, each in at most so many bytes.
ghost use Rattle.std.specs.Prelude.{◌+◌, ◌≤◌, length};
ghost use Rattle.answers.specs.Outcome.{number};
ghost use Rattle.words.specs.Writing.{Put};
ghost use Rattle.comparison.specs.Lines.{named, reading_text, leader_text, verdict_text, base_line, beam_line, peak_line, level_behind, floor_behind, behind_text, behind_line, mast_lines, round_line, refused_line};

use crate::masts::{AtBase, Mast, Reading};
use answers::{Kind, Refusal};
use figures::push_difference;
use labels::{push_reading, push_whole};
use words::page::Page;

#[tactic(auto, unfolding(crate::specs::Lines::named))]
fn push_named<const N: usize>(page: &mut Page<N>, name: u8, words: &[u8])
    requires { length page.old + (1 + length words.now) ≤ N }
    ensures { Put (1 + length words.now) page.old (named name words.now) page.new }
{
    page.push(name);
    page.push_bytes(words);
}

// A mast's gain at the base.
#[tactic(auto, unfolding(crate::specs::Lines::reading_text, crate::specs::Lines::named, quoted::specs::Quoted::quoted))]
fn push_gain<const N: usize>(page: &mut Page<N>, name: u8, r: Reading)
    requires { length page.old + 20 ≤ N }
    ensures { Put 20 page.old (reading_text name r) page.new }
{
    match r.kind {
        Kind::Level => {
            page.push(name);
            push_reading(page, b" ", r.number);
            page.push_bytes(b" dBi");
        }
        Kind::Floor => push_named(page, name, b" floor"),
        Kind::Silence => push_named(page, name, b" silence"),
    }
}

// Who leads, and by how much.
#[tactic(auto, using(dial::proofs::OtherKinds::no_level), unfolding(crate::specs::Lines::leader_text, crate::specs::Lines::named, quoted::specs::Quoted::quoted))]
fn push_leader<const N: usize>(page: &mut Page<N>, name: u8, r: Reading, other: Reading)
    requires { length page.old + 28 ≤ N }
    ensures { Put 28 page.old (leader_text name r other) page.new }
{
    match other.kind {
        Kind::Level => {
            page.push(name);
            push_difference(page, b" leads by ", r.number, other.number);
            page.push_bytes(b" dB");
        }
        _ => push_named(page, name, b" leads"),
    }
}

#[tactic(auto, unfolding(crate::specs::Lines::verdict_text, quoted::specs::Quoted::quoted))]
fn push_verdict<const N: usize>(page: &mut Page<N>, a: AtBase, b: AtBase)
    requires { length page.old + 28 ≤ N }
    ensures { Put 28 page.old (verdict_text a.leads b.leads a.gain b.gain) page.new }
{
    if a.leads {
        push_leader(page, b'A', a.gain, b.gain);
    } else if b.leads {
        push_leader(page, b'B', b.gain, a.gain);
    } else {
        page.push_bytes(b"neither leads");
    }
}

// The line of the base.
#[tactic(auto, unfolding(crate::specs::Lines::base_line, quoted::specs::Quoted::quoted))]
pub(crate) fn push_base<const N: usize>(page: &mut Page<N>, base: u32, a: AtBase, b: AtBase)
    requires { length page.old + 110 ≤ N }
    ensures { Put 110 page.old (base_line base a.leads b.leads a.gain b.gain) page.new }
{
    push_whole(page, b"at the base, azimuth ", base);
    page.push_bytes(b": ");
    push_verdict(page, a, b);
    page.push_bytes(b" (");
    push_gain(page, b'A', a.gain);
    page.push_bytes(b", ");
    push_gain(page, b'B', b.gain);
    page.push_bytes(b")\n");
}

#[tactic(auto, unfolding(crate::specs::Lines::beam_line, quoted::specs::Quoted::quoted))]
fn push_beam<const N: usize>(page: &mut Page<N>, m: Mast)
    requires { length page.old + 80 ≤ N }
    ensures { Put 80 page.old (beam_line m) page.new }
{
    page.push(m.name);
    push_reading(page, b": peak ", m.peak.number);
    push_whole(page, b" dBi at ", m.azimuth);
    push_whole(page, b", beam ", m.beam);
    page.push_bytes(b" degrees wide at 3 dB\n");
}

#[tactic(auto, using(dial::proofs::OtherKinds::no_floor, dial::proofs::OtherKinds::no_silence), unfolding(crate::specs::Lines::peak_line, crate::specs::Lines::named, quoted::specs::Quoted::quoted))]
fn push_peak<const N: usize>(page: &mut Page<N>, m: Mast)
    requires { length page.old + 80 ≤ N }
    ensures { Put 80 page.old (peak_line m) page.new }
{
    match (m.front.kind, m.peak.kind) {
        (Kind::Silence, _) => push_named(page, m.name, b": silence, no gain in any direction\n"),
        (_, Kind::Floor) => push_named(page, m.name, b": floor all round, -30 dBi or less\n"),
        _ => push_beam(page, m),
    }
}

#[tactic(auto, unfolding(crate::specs::Lines::level_behind, quoted::specs::Quoted::quoted))]
fn push_level<const N: usize>(page: &mut Page<N>, m: Mast)
    requires { length page.old + 64 ≤ N }
    ensures { Put 64 page.old (level_behind m) page.new }
{
    push_reading(page, b"at most ", m.behind.number);
    push_difference(
        page,
        b" dBi, front-to-back ",
        m.front.number,
        m.behind.number,
    );
    page.push_bytes(b" dB\n");
}

fn push_floor<const N: usize>(page: &mut Page<N>, m: Mast)
    requires { length page.old + 64 ≤ N }
    ensures { Put 64 page.old (floor_behind m) page.new }
{
    push_difference(
        page,
        b"floor, -30 dBi or less, front-to-back ",
        m.front.number,
        m.behind.number,
    );
    page.push_bytes(b" dB or more\n");
}

#[tactic(auto, using(dial::proofs::OtherKinds::no_floor, dial::proofs::OtherKinds::no_silence), unfolding(crate::specs::Lines::behind_text, quoted::specs::Quoted::quoted))]
fn push_rear<const N: usize>(page: &mut Page<N>, m: Mast)
    requires { length page.old + 64 ≤ N }
    ensures { Put 64 page.old (behind_text m) page.new }
{
    match (m.front.kind, m.peak.kind, m.behind.kind) {
        (Kind::Silence, _, _) => page.push_bytes(b"silence\n"),
        (_, Kind::Floor, _) => page.push_bytes(b"floor\n"),
        (_, _, Kind::Floor) => push_floor(page, m),
        _ => push_level(page, m),
    }
}

fn push_behind<const N: usize>(page: &mut Page<N>, m: Mast)
    requires { length page.old + 90 ≤ N }
    ensures { Put 90 page.old (behind_line m) page.new }
{
    page.push_bytes(b"behind ");
    page.push(m.name);
    page.push_bytes(b", 90 to 270: ");
    push_rear(page, m);
}

// The lines of both masts.
#[tactic(auto, unfolding(crate::specs::Lines::mast_lines))]
pub(crate) fn push_masts<const N: usize>(page: &mut Page<N>, a: Mast, b: Mast)
    requires { length page.old + 340 ≤ N }
    ensures { Put 340 page.old (mast_lines a b) page.new }
{
    push_peak(page, a);
    push_peak(page, b);
    push_behind(page, a);
    push_behind(page, b);
}

// In how many azimuths each leads.
#[tactic(auto, unfolding(crate::specs::Lines::round_line, quoted::specs::Quoted::quoted))]
pub(crate) fn push_round<const N: usize>(page: &mut Page<N>, a: u32, b: u32)
    requires { (length page.old + 90 ≤ N) × (a + b ≤ 360) }
    ensures { Put 90 page.old (round_line a b) page.new }
{
    push_whole(page, b"all round: A leads in ", a);
    push_whole(page, b" azimuths, B in ", b);
    push_whole(page, b", neither in ", 360 - (a + b));
    page.push_bytes(b"\n");
}

// Inner step: the line of a mast that is refused.
#[tactic(auto, unfolding(crate::specs::Lines::refused_line, quoted::specs::Quoted::quoted))]
pub fn push_refused<const N: usize>(page: &mut Page<N>, name: u8, refusal: Refusal)
    requires { length page.old + 22 ≤ N }
    ensures { Put 22 page.old (refused_line name (number refusal)) page.new }
{
    page.push(name);
    push_whole(page, b": refused ", u8::from(refusal) as u32);
    page.push_bytes(b"\n");
}
