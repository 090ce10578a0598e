// Which words are a board's: those that a run of joins and leaves can leave.
ghost use Rattle.std.specs.Prelude.{◌≡◌};
ghost use Rattle.board_air.specs.Words.{board_ok};

use crate::WORDS;
use board_air::AIR;
use board_air::accepted::air_ok;
use board_anew::kept::kept_ok;

// Whether the stations' places are a run's, and what is kept is what they show.
#[tactic(auto, unfolding(board_air::specs::Words::board_ok))]
pub(crate) fn board_ok(board: &[u32]) -> bool
    ensures { result ≡ board_ok board.now }
{
    if board.len() != WORDS {
        return false;
    }
    let (air, kept) = board.split_at(AIR);
    air_ok(air) && kept_ok(air, kept)
}
