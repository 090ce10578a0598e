#![tactic(auto)]

// The rings of a plate, every 10 dB from its bottom to its top, and the axes: `scale_text`; and the gain of
// each ring in dBi: `labels_text` (specs/Rings.antt), as SVG. Labels are drawn after the curve, on a white
// rim of their own, on the side of their rings that it leaves free (`within`).
ghost use Rattle.std.specs.Prelude.{◌≡◌, ◌+◌, ◌/◌, ◌≤◌, length};
ghost use Rattle.words.specs.Writing.{Put};
ghost use Rattle.dial.specs.Scale.{span_of};
ghost use Rattle.rings.specs.Rings.{within, label_height, ring_text, rings_to, scale_text, label_text, labels_to, bottom_label, labels_text};

use dial::{bottom, radius, span};
use labels::{push_dbi, push_whole};
use words::page::Page;

// Whether labels stand within their rings.
pub fn stands_within(numbers: &[u32; 360]) -> bool
    ensures { result ≡ within numbers.now }
{
    numbers[175] % 1000 < 500
}

fn push_ring<const N: usize>(page: &mut Page<N>, r: u32)
    requires { length page.old + 50 ≤ N }
    ensures { Put 50 page.old (ring_text r) page.new }
{
    push_whole(page, b"<circle cx='4000' cy='4000' r='", r);
    page.push_bytes(b"'/>\n");
}

// The rings from the bottom to the top.
fn push_rings<const N: usize>(page: &mut Page<N>, peak: u32)
    requires { (length page.old + 350 ≤ N) × (peak ≤ 200000) }
    ensures { Put 350 page.old (rings_to peak (span_of peak / 1000 + 1)) page.new }
{
    let low = bottom(peak);
    let rings = span(peak) / 1000 + 1;
    for k in 0..rings {
        push_ring(page, radius(peak, low + 1000 * k));
    }
}

// Inner step: the axes and rings of a plate with this peak.
pub fn push_scale<const N: usize>(page: &mut Page<N>, peak: u32)
    requires { (length page.old + 500 ≤ N) × (peak ≤ 200000) }
    ensures { Put 500 page.old (scale_text peak) page.new }
{
    page.push_bytes(b"<g fill='none' stroke='#888' stroke-width='14'>\n");
    page.push_bytes(
        b"<path d='M 4000 900 V 3600 M 4000 4400 V 7100 M 900 4000 H 3600 M 4400 4000 H 7100'/>\n",
    );
    push_rings(page, peak);
    page.push_bytes(b"</g>\n");
}

#[tactic(auto, unfolding(crate::specs::Rings::label_height))]
fn label_height(inner: bool, r: u32) -> u32
    requires { r ≤ 3100 }
    ensures { result ≡ label_height inner r }
{
    if inner {
        return 3955 + r;
    }
    4215 + r
}

fn push_label<const N: usize>(page: &mut Page<N>, inner: bool, r: u32, gain: u32)
    requires { (length page.old + 50 ≤ N) × (r ≤ 3100) }
    ensures { Put 50 page.old (label_text inner r gain) page.new }
{
    push_whole(page, b"<text x='4060' y='", label_height(inner, r));
    page.push_bytes(b"'>");
    push_dbi(page, gain);
    page.push_bytes(b"</text>\n");
}

// The labels of the rings above the bottom ring.
fn push_upper_labels<const N: usize>(page: &mut Page<N>, inner: bool, peak: u32)
    requires { (length page.old + 300 ≤ N) × (peak ≤ 200000) }
    ensures { Put 300 page.old (labels_to inner peak (span_of peak / 1000)) page.new }
{
    let low = bottom(peak);
    let rings = span(peak) / 1000;
    for k in 0..rings {
        let gain = low + 1000 * (k + 1);
        push_label(page, inner, radius(peak, gain), gain);
    }
}

// The bottom ring's label, at the centre.
fn push_bottom_label<const N: usize>(page: &mut Page<N>, peak: u32)
    requires { (length page.old + 130 ≤ N) × (peak ≤ 200000) }
    ensures { Put 130 page.old (bottom_label peak) page.new }
{
    page.push_bytes(b"<text x='4000' y='3980' text-anchor='middle'>");
    push_dbi(page, bottom(peak));
    page.push_bytes(b"</text>\n<text x='4000' y='4230' text-anchor='middle'>dBi</text>\n");
}

// Inner step: the labels of the rings of a plate with this peak.
pub fn push_labels<const N: usize>(page: &mut Page<N>, inner: bool, peak: u32)
    requires { (length page.old + 510 ≤ N) × (peak ≤ 200000) }
    ensures { Put 510 page.old (labels_text inner peak) page.new }
{
    page.push_bytes(b"<g fill='#333' stroke='#fff' stroke-width='80' paint-order='stroke'>\n");
    push_bottom_label(page, peak);
    push_upper_labels(page, inner, peak);
    page.push_bytes(b"</g>\n");
}
