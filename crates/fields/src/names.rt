// The names of the fields, in the order in which a missing one is told. A field goes by its number: the
// table counts by it, and C callers get it with a mistake.
ghost use Rattle.std.specs.Prelude.{◌≡◌, ◌+◌, ◌≤◌, length};
ghost use Rattle.words.specs.Writing.{Put};
ghost use Rattle.lines.specs.Alike.{alike};
ghost use Rattle.fields.specs.Names.{FIELDS, name_of, field_of};

use crate::first::least;
use lines::same;
use words::page::Page;

pub const TYPE: usize = 1;

pub const GROUND: usize = 2;

pub const DIPOLES: usize = 3;

pub const HEIGHT: usize = 4;

pub const SLEW: usize = 5;

pub const SCREEN: usize = 6;

pub const REFLECTOR: usize = 7;

pub const START: usize = 8;

pub const ELEMENTS: usize = 9;

pub const LENGTHS: usize = 10;

pub const BOOM: usize = 11;

pub const HEIGHTS: usize = 12;

pub const FEEDER: usize = 13;

pub const LEG: usize = 14;

pub const ANGLE: usize = 15;

pub const BAYS: usize = 16;

pub const STACKS: usize = 17;

pub const DIPOLE: usize = 18;

pub const SPACING: usize = 19;

pub const EXCITATION: usize = 20;

pub const GAIN: usize = 21;

pub const GAIN_RATIO: usize = 22;

pub const GAIN_MHZ: usize = 23;

pub const MHZ: usize = 24;

pub const DESIGN: usize = 25;

pub const ELEVATION: usize = 26;

// How many fields there are.
pub const FIELDS: usize = 26;

// The name of field f; no other number has one.
#[tactic(auto, unfolding(crate::specs::Names::name_of, crate::specs::Names::names, quoted::specs::Quoted::quoted))]
pub fn name_of(f: usize) -> &'static [u8]
    ensures { result.now ≡ name_of f }
{
    match f {
        TYPE => b"type",
        GROUND => b"ground",
        DIPOLES => b"dipoles",
        HEIGHT => b"height",
        SLEW => b"slew",
        SCREEN => b"screen",
        REFLECTOR => b"reflector",
        START => b"start",
        ELEMENTS => b"elements",
        LENGTHS => b"lengths",
        BOOM => b"boom",
        HEIGHTS => b"heights",
        FEEDER => b"feeder",
        LEG => b"leg",
        ANGLE => b"angle",
        BAYS => b"bays",
        STACKS => b"stacks",
        DIPOLE => b"dipole",
        SPACING => b"spacing",
        EXCITATION => b"excitation",
        GAIN => b"gain",
        GAIN_RATIO => b"gain-ratio",
        GAIN_MHZ => b"gain-mhz",
        MHZ => b"mhz",
        DESIGN => b"design",
        ELEVATION => b"elevation",
        _ => b"",
    }
}

// Whether a word is the name of field f.
pub fn is_name(f: usize, word: &[u8]) -> bool
    ensures { result ≡ alike (name_of f) word.now }
{
    same(name_of(f), word)
}

// The field that a word names, 0 where it names none.
pub fn field_of(word: &[u8]) -> usize
    ensures { result ≡ field_of word.now }
{
    least(FIELDS, |f| is_name(f, word))
}

// Inner step: the name of field f.
#[tactic(auto, using(words::proofs::Writing::at_most, crate::proofs::Lengths::name_length))]
pub fn push_name<const N: usize>(page: &mut Page<N>, f: usize)
    requires { length page.old + 10 ≤ N }
    ensures { Put 10 page.old (name_of f) page.new }
{
    page.push_bytes(name_of(f));
}
