#![tactic(auto)]

// The fields of a station card: what people call them, who has them, where their numbers go. A card's
// kind is its type and its mode. A field's number is its place in the list of names (`name_of`,
// specs/Names.antt); the table (specs/Table.antt) says which kinds have it, how many numbers it has
// and in which places of the station they stand; specs/Limits.antt says what numbers it takes.
//
// Proved (proofs/Laws.antt): no two fields have one name (`name_back`), and each number of a field of a
// kind has a place that it shares with no other (`number-placed`).
pub mod first;
pub mod limits;
pub mod names;
pub mod table;

// The type, 1 to 9 or `CURTAIN`, 0 where it isn't known; and the mode, by the maximum gain.
#[derive(Clone, Copy)]
pub struct Kind {
    pub iant: usize,
    pub mode: u8,
}

// The curtain's number among the types.
pub const CURTAIN: usize = 10;
