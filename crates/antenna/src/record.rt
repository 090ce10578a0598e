// The antenna record that set-up leaves and gain reads.
use model::record::Model;
use search::record::Peak;

// What set-up leaves beside the lent table: all that gain and row read.
#[derive(Clone, Copy)]
pub struct Antenna {
    pub model: Model,
    pub peak: Peak,
    pub sum: u32, // of the table, by its floats' bits
}
