// Which kinds have a field, and where its numbers go.
ghost use Rattle.std.specs.Prelude.{◌≡◌, ◌≤◌};
ghost use Rattle.fields.specs.Table.{LAST, is_maximum_gain, mode_of, row_number, in_kind, number_in, is_row_of, is_row_at, row_of, row_at, has_field, count_of, first_place, source_of};

use crate::first::least;
use crate::names::{
    ANGLE, BAYS, BOOM, DESIGN, DIPOLE, DIPOLES, ELEMENTS, ELEVATION, EXCITATION, FEEDER, GAIN,
    GAIN_MHZ, GAIN_RATIO, GROUND, HEIGHT, HEIGHTS, LEG, LENGTHS, MHZ, REFLECTOR, SCREEN, SLEW,
    SPACING, STACKS, START, TYPE,
};
use crate::{CURTAIN, Kind};

// A field of the types `from` to `to`: it has `count` numbers, for the places from `first` on.
#[derive(Clone, Copy)]
struct Row {
    field: usize,
    from: usize,
    to: usize,
    first: usize,
    count: usize,
}

// The number of a place: which field's, and which of them, from 1. No field is 0.
#[derive(Clone, Copy)]
pub struct Source {
    pub field: usize,
    pub number: usize,
}

// The rows: field, from, to, first, count; none is row 0. A field whose number goes to two places has
// two rows, the slot's first. The type is a field of every card. Numbers, and no `Row`s: a constant calls
// no function, and forty literals with five names each make no table.
const ROWS: [[usize; 5]; 40] = [
    [0, 0, 0, 0, 0],
    [TYPE, 0, CURTAIN, 1, 1],
    [GROUND, 1, 9, 2, 2],
    [DIPOLES, 1, 4, 5, 2],
    [HEIGHT, 1, 4, 8, 1],
    [HEIGHT, 7, 9, 6, 1],
    [HEIGHT, CURTAIN, CURTAIN, 9, 1],
    [SLEW, 1, 4, 9, 1],
    [SLEW, CURTAIN, CURTAIN, 14, 1],
    [SCREEN, 1, 1, 10, 3],
    [SCREEN, CURTAIN, CURTAIN, 12, 1],
    [REFLECTOR, 2, 3, 10, 1],
    [START, 1, 1, 13, 2],
    [START, 2, 3, 11, 2],
    [START, 4, 4, 10, 2],
    [START, 8, 9, 10, 2],
    [ELEMENTS, 5, 6, 5, 1],
    [LENGTHS, 5, 6, 6, 2],
    [BOOM, 5, 6, 8, 1],
    [HEIGHTS, 5, 6, 9, 2],
    [FEEDER, 5, 6, 11, 1],
    [LEG, 7, 7, 5, 1],
    [ANGLE, 7, 7, 7, 1],
    [BAYS, CURTAIN, CURTAIN, 5, 1],
    [STACKS, CURTAIN, CURTAIN, 6, 1],
    [DIPOLE, CURTAIN, CURTAIN, 8, 1],
    [SPACING, CURTAIN, CURTAIN, 10, 2],
    [EXCITATION, CURTAIN, CURTAIN, 13, 1],
    [GAIN, 1, 9, 0, 1],
    [GAIN_RATIO, 1, 4, 20, 6],
    [GAIN_RATIO, 8, 9, 20, 6],
    [GAIN_MHZ, 1, 9, 26, 30],
    [MHZ, 1, CURTAIN, 4, 1],
    [MHZ, 1, CURTAIN, 56, 1],
    [DESIGN, 1, 4, 7, 1],
    [DESIGN, 8, 9, 5, 1],
    [DESIGN, CURTAIN, CURTAIN, 7, 1],
    [DESIGN, 1, 4, 57, 1],
    [DESIGN, 8, CURTAIN, 57, 1],
    [ELEVATION, 1, CURTAIN, 58, 1],
];

// The last row's number.
const LAST: usize = 39;

#[tactic(auto, unfolding(crate::specs::Table::rows, crate::specs::Table::row_number))]
fn nth_row(r: usize) -> Row
    requires { r ≤ LAST }
    ensures { result ≡ row_number r }
{
    let [field, from, to, first, count] = ROWS[r];
    Row {
        field,
        from,
        to,
        first,
        count,
    }
}

// Whether a field tells the maximum gain.
#[tactic(auto, unfolding(crate::specs::Table::is_maximum_gain))]
pub fn is_maximum_gain(f: usize) -> bool
    ensures { result ≡ is_maximum_gain f }
{
    (f == GAIN) | (f == GAIN_RATIO) | (f == GAIN_MHZ)
}

// The mode of a card whose maximum gain is told by this field.
#[tactic(auto, unfolding(crate::specs::Table::mode_of))]
pub fn mode_of(f: usize) -> u8
    ensures { result ≡ mode_of f }
{
    match f {
        GAIN_RATIO => 1,
        GAIN_MHZ => 2,
        _ => 0,
    }
}

// Whether a row is one of this kind.
#[tactic(auto, unfolding(crate::specs::Table::in_kind))]
fn in_kind(kind: Kind, row: Row) -> bool
    ensures { result ≡ in_kind kind row }
{
    (row.from <= kind.iant)
        & (kind.iant <= row.to)
        & (!is_maximum_gain(row.field) | (mode_of(row.field) == kind.mode))
}

// Which of a row's numbers, from 1, goes to place p; 0 where none does.
#[tactic(auto, unfolding(crate::specs::Table::number_in))]
fn number_in(row: Row, p: usize) -> usize
    ensures { result ≡ number_in row p }
{
    if p < row.first {
        return 0;
    }
    let i = p - row.first;
    if i < row.count { i + 1 } else { 0 }
}

fn is_row_of(kind: Kind, f: usize, r: usize) -> bool
    requires { r ≤ LAST }
    ensures { result ≡ is_row_of kind f r }
{
    let row = nth_row(r);
    in_kind(kind, row) & (row.field == f)
}

fn is_row_at(kind: Kind, p: usize, r: usize) -> bool
    requires { r ≤ LAST }
    ensures { result ≡ is_row_at kind p r }
{
    let row = nth_row(r);
    in_kind(kind, row) & (number_in(row, p) != 0)
}

// The first row of a kind with this field, 0 where there is none.
fn row_of(kind: Kind, f: usize) -> usize
    ensures { (result ≡ row_of kind f) × (result ≤ LAST) }
{
    least(LAST, |r| is_row_of(kind, f, r))
}

// The first row of a kind with a number for this place, 0 where there is none.
fn row_at(kind: Kind, p: usize) -> usize
    ensures { (result ≡ row_at kind p) × (result ≤ LAST) }
{
    least(LAST, |r| is_row_at(kind, p, r))
}

#[tactic(auto, unfolding(crate::specs::Table::has_field))]
pub fn has_field(kind: Kind, f: usize) -> bool
    ensures { result ≡ has_field kind f }
{
    row_of(kind, f) != 0
}

// How many numbers a field has.
#[tactic(auto, unfolding(crate::specs::Table::count_of))]
pub fn count_of(kind: Kind, f: usize) -> usize
    ensures { result ≡ count_of kind f }
{
    nth_row(row_of(kind, f)).count
}

// The place of its first number; the others go to the places behind it.
#[tactic(auto, unfolding(crate::specs::Table::first_place))]
pub fn first_place(kind: Kind, f: usize) -> usize
    ensures { result ≡ first_place kind f }
{
    nth_row(row_of(kind, f)).first
}

// Which number stands in a place.
#[tactic(auto, unfolding(crate::specs::Table::source_of))]
pub fn source_of(kind: Kind, p: usize) -> Source
    ensures { result ≡ source_of kind p }
{
    let it = nth_row(row_at(kind, p));
    Source {
        field: it.field,
        number: number_in(it, p),
    }
}
