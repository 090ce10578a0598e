// What the board keeps: at each azimuth the greatest number's bits, and after these the ids.
ghost use Rattle.std.specs.Prelude.{◌≡◌, [], ◌+◌, ◌<◌, length, set};
ghost use Rattle.board_air.specs.Words.{kept_of, same_words};
ghost use Rattle.board_kept.specs.Steps.{entry, entry_in, better_of, kept_by, raised, raised_vacated, renewed};

use numeric::bits::float_of;

// The bits of a number, and the id that has it; id 0 is nobody.
#[derive(Clone, Copy, Debug, PartialEq, Eq)]
pub struct Entry {
    pub bits: u32,
    pub id: u32,
}

// What is shown with nobody on: -30 and id 0.
fn nobody() -> Entry
    ensures { result ≡ entry 0xC1F00000 0 }
{
    Entry {
        bits: 0xC1F0_0000,
        id: 0,
    }
}

// What is kept at azimuth v.
fn entry_in(kept: &[u32], v: usize) -> Entry
    requires { (length kept.now ≡ 720) × (v < 360) }
    ensures { result ≡ entry_in kept.now v }
{
    Entry {
        bits: kept[v],
        id: kept[360 + v],
    }
}

#[tactic(auto, unfolding(crate::specs::Steps::entry))]
fn put_entry(kept: &mut [u32], v: usize, entry: Entry)
    requires { (length kept.old ≡ 720) × (v < 360) }
    ensures { kept.new ≡ set (set kept.old v entry.bits) (360 + v) entry.id }
{
    kept[v] = entry.bits;
    kept[360 + v] = entry.id;
}

// One more against the one shown: the greater number; of equal ones that of the lower id.
#[tactic(auto, unfolding(crate::specs::Steps::better_of))]
fn better(a: Entry, b: Entry) -> Entry
    ensures { result ≡ better_of a b }
{
    let new = float_of(a.bits);
    let old = float_of(b.bits);
    let greater = old < new;
    let equal = old == new;
    if (b.id == 0) | (greater | equal & (a.id < b.id)) {
        a
    } else {
        b
    }
}

// One more, with this id and these bits, against what is kept: one comparison an azimuth.
// Inner step: of `board::join` and of `board_anew`, which lend 720 words and 360.
pub fn raise(kept: &mut [u32], id: u32, bits: &[u32])
    requires { (length kept.old ≡ 720) × (length bits.now ≡ 360) }
    ensures { kept.new ≡ kept_by (raised id bits.now kept.old) }
{
    for v in 0..360 {
        let new = Entry { bits: bits[v], id };
        let best = better(new, entry_in(kept, v));
        put_entry(kept, v, best);
    }
}

// With nobody on.
// Inner step: of `board::empty` and of `board_anew`, which lend 720 words.
pub fn put_nobody(kept: &mut [u32])
    requires { length kept.old ≡ 720 }
    ensures { kept.new ≡ kept_of [] }
{
    for v in 0..360 {
        put_entry(kept, v, nobody());
    }
}

// Inner step: of `board_anew`'s test of what is kept, 720 words beside 720.
pub fn same_words(a: &[u32], b: &[u32]) -> bool
    requires { length a.now ≡ length b.now }
    ensures { result ≡ same_words a.now b.now }
{
    a == b
}

// What is kept, with nobody where the one gone was shown.
// Inner step: of `board_anew`, which lends 720 words.
pub fn vacated(kept: &[u32], gone: u32) -> [u32; 720]
    requires { length kept.now ≡ 720 }
    ensures { result ≡ kept_by (renewed gone [] kept.now) }
{
    let mut left = [0u32; 720];
    for v in 0..360 {
        let was = entry_in(kept, v);
        let rest = if was.id == gone { nobody() } else { was };
        put_entry(&mut left, v, rest);
    }
    left
}

// One more, as in `raise`, but only where the one gone was shown among those kept.
// Inner step: of `board_anew`, which lends 720 words, 720 and 360.
pub fn raise_vacated(left: &mut [u32], kept: &[u32], gone: u32, id: u32, bits: &[u32])
    requires { (length left.old ≡ 720) × (length kept.now ≡ 720) × (length bits.now ≡ 360) }
    ensures { left.new ≡ kept_by (raised_vacated gone kept.now id bits.now left.old) }
{
    for v in 0..360 {
        let new = Entry { bits: bits[v], id };
        let old = entry_in(left, v);
        let best = better(new, old);
        let rest = if kept[360 + v] == gone { best } else { old };
        put_entry(left, v, rest);
    }
}
