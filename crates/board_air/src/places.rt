// Who has which place on the board.
ghost use Rattle.std.specs.Prelude.{◌≡◌, ◌≤◌, length};
ghost use Rattle.board_air.specs.Runs.{on};
ghost use Rattle.board_air.specs.Words.{stations_to, air_size};
ghost use Rattle.board_air.specs.Steps.{slot_of};

// The first place of this id among the first n.
pub(crate) fn slot_of(air: &[u32], n: usize, id: u32) -> Option<usize>
    requires { (length air.now ≡ air_size) × (n ≤ 16) }
    ensures { result ≡ slot_of id (stations_to air.now n) }
{
    (0..n).find(|&k| air[1 + 361 * k] == id)
}

// Whether this id is among the first n.
// Inner step: of the refusals, once the words are a board's.
#[tactic(auto, using(crate::proofs::Slots::slot_on))]
pub fn is_on(air: &[u32], n: usize, id: u32) -> bool
    requires { (length air.now ≡ air_size) × (n ≤ 16) }
    ensures { result ≡ on id (stations_to air.now n) }
{
    slot_of(air, n, id).is_some()
}
