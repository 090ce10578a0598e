// The card of a station: a line for each field of its kind.
ghost use Rattle.std.specs.Prelude.{◌≡◌, true, ◌∷◌, ◌+◌, ◌*◌, ◌≤◌, ◌<◌, length};
ghost use Rattle.std.specs.Float.Ieee.Scale.{finite};
ghost use Rattle.words.specs.Writing.{Put};
ghost use Rattle.fields.specs.Table.{count_of};
ghost use Rattle.card_back.specs.Text.{kind_of, place_in, word_of, in_turn, label, number_text, line_text, field_text, text_of};
ghost use Rattle.card_back.specs.Inner.{Sound};

use fields::limits::type_number;
use fields::names::{FIELDS, TYPE, name_of};
use fields::table::{count_of, first_place, has_field};
use fields::{CURTAIN, Kind};
use station::Station;
use station::fields::float_at;
use typed::push_typed;
use words::big_endian;
use words::page::Page;

// The kind of a station.
#[tactic(auto, unfolding(crate::specs::Text::kind_of))]
fn kind_of(s: Station) -> Kind
    ensures { result ≡ kind_of s }
{
    let iant = match s.mode {
        3 => CURTAIN,
        _ => type_number(s.parm[1]),
    };
    Kind { iant, mode: s.mode }
}

// A blank, and a field's number.
#[tactic(auto, unfolding(crate::specs::Text::word_of, quoted::specs::Quoted::quoted))]
fn push_word<const N: usize>(page: &mut Page<N>, kind: Kind, f: usize, x: f32)
    requires { (length page.old + 87 ≤ N) × (finite x ≡ true) }
    ensures { Put 87 page.old (32 ∷ word_of kind f x) page.new }
{
    page.push(b' ');
    if (f == TYPE) & (kind.iant == CURTAIN) {
        page.push_bytes(b"curtain");
    } else {
        push_typed(page, x);
    }
}

// The name, and blanks up to where the numbers start.
#[tactic(auto, using(fields::proofs::Lengths::name_length), unfolding(crate::specs::Text::label))]
fn push_label<const N: usize>(page: &mut Page<N>, f: usize)
    requires { length page.old + 11 ≤ N }
    ensures { Put 11 page.old (label f) page.new }
{
    let name = name_of(f);
    page.push_bytes(name);
    page.push_bytes(&[b' '; 11][name.len()..]);
}

// A station, its kind and the 237 bytes that it was read from.
#[derive(Clone, Copy)]
pub(crate) struct Source<'a> {
    kind: Kind,
    station: Station,
    bytes: &'a [u8],
    ghost sound: { Sound station bytes.now },
}

impl Source<'_> {
    pub(crate) fn new(station: Station, bytes: &[u8]) -> Source
        requires { Sound station bytes.now }
        ensures { (result.kind ≡ kind_of station) × (result.station ≡ station) × (result.bytes.now ≡ bytes.now) }
    {
        Source {
            kind: kind_of(station),
            station,
            bytes,
        }
    }

    // The float in place p.
    #[tactic(auto, unfolding(crate::specs::Text::place_in))]
    fn place(self, p: usize) -> f32
        requires { p < 59 }
        ensures { result ≡ place_in self.entry.station self.entry.bytes.now p }
    {
        if p < 56 {
            float_at(self.station, p)
        } else {
            big_endian::float_at(self.bytes, 225 + 4 * (p - 56))
        }
    }

    // The field's numbers.
    fn push_numbers<const N: usize>(self, page: &mut Page<N>, f: usize)
        requires { length page.old + 87 * count_of self.kind f ≤ N }
        ensures { Put (87 * count_of self.entry.kind f) page.old (in_turn (number_text self.entry.kind (place_in self.entry.station self.entry.bytes.now) f) (count_of self.entry.kind f)) page.new }
    {
        let first = first_place(self.kind, f);
        for k in 0..count_of(self.kind, f) {
            push_word(page, self.kind, f, self.place(first + k));
        }
    }

    // The field's line.
    #[tactic(auto, unfolding(crate::specs::Text::line_text))]
    fn push_line<const N: usize>(self, page: &mut Page<N>, f: usize)
        requires { length page.old + (12 + 87 * count_of self.kind f) ≤ N }
        ensures { Put (12 + 87 * count_of self.entry.kind f) page.old (line_text self.entry.kind (place_in self.entry.station self.entry.bytes.now) f) page.new }
    {
        push_label(page, f);
        self.push_numbers(page, f);
        page.push(b'\n');
    }

    // The field's line, if the kind has it.
    #[tactic(auto, using(words::proofs::Writing::put_none), unfolding(crate::specs::Text::field_text))]
    fn push_field<const N: usize>(self, page: &mut Page<N>, f: usize)
        requires { length page.old + (12 + 87 * count_of self.kind f) ≤ N }
        ensures { Put (12 + 87 * count_of self.entry.kind f) page.old (field_text self.entry.kind (place_in self.entry.station self.entry.bytes.now) f) page.new }
    {
        if has_field(self.kind, f) {
            self.push_line(page, f);
        }
    }

    // The whole card.
    pub(crate) fn push_text<const N: usize>(self, page: &mut Page<N>)
        requires { length page.old + 8192 ≤ N }
        ensures { Put 8192 page.old (text_of self.entry.kind (place_in self.entry.station self.entry.bytes.now)) page.new }
    {
        for i in 0..FIELDS {
            self.push_field(page, i + 1);
        }
    }
}
