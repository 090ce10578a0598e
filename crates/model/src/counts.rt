// The counts of an antenna record.
ghost use Rattle.std.specs.Prelude.{◌≡◌, ◌≤◌};
ghost use Rattle.model.specs.Counts.{count_ok, element_ok, elements_ok, counts_ok};

use crate::record::Model;

// A float count of 0 to 64.
#[tactic(auto, unfolding(crate::specs::Counts::count_ok))]
pub fn count_ok(x: f32) -> bool
    ensures { result ≡ count_ok x }
{
    0.0 <= x && x <= 64.0
}

// An element's number.
#[tactic(auto, unfolding(crate::specs::Counts::element_ok))]
fn element_ok(i: usize) -> bool
    ensures { result ≡ element_ok i }
{
    1 <= i && i <= 30
}

// Whether entries 1 to n name elements.
fn elements_ok(iek: [usize; 36], n: usize) -> bool
    requires { n ≤ 30 }
    ensures { result ≡ elements_ok iek n }
{
    iek[1..n + 1].iter().all(|i| element_ok(*i))
}

// Whether a record's loops may run: its float counts, and the list of its active elements.
#[tactic(auto, unfolding(crate::specs::Counts::counts_ok))]
pub fn counts_ok(m: Model) -> bool
    ensures { result ≡ counts_ok m }
{
    let e = m.elements;
    let nat = e.nat;
    if nat <= 30 {
        let iek = e.iek;
        count_ok(m.constants.r2) & count_ok(m.constants.r3) & elements_ok(iek, nat)
    } else {
        false
    }
}
