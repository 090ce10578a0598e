// Why a call on the board is refused: the first refusal of the card's order.
ghost use Rattle.std.specs.Prelude.{◌≡◌};
ghost use Rattle.answers.specs.Outcome.{number_of};
ghost use Rattle.board.specs.Calls.{join_answer, leave_answer, show_answer};

use crate::accepted::board_ok;
use answers::Refusal;
use board_air::AIR;
use board_air::accepted::is_id;
use board_air::places::is_on;
use floats::range::all_finite;

pub(crate) fn check_join(board: &[u32], id: u32, row: &[f32]) -> Result<(), Refusal>
    ensures { number_of result ≡ join_answer board.now id row.now }
{
    if !all_finite(row) {
        return Err(Refusal::Value);
    }
    let space = board_ok(board) & (row.len() == 360);
    if !space {
        return Err(Refusal::Space);
    }
    let n = board[0] as usize;
    let new = !is_on(&board[..AIR], n, id);
    let may = is_id(id) & new;
    if !may {
        return Err(Refusal::Call);
    }
    if n >= 16 {
        return Err(Refusal::Full);
    }
    Ok(())
}

pub(crate) fn check_leave(board: &[u32], id: u32) -> Result<(), Refusal>
    ensures { number_of result ≡ leave_answer board.now id }
{
    if !board_ok(board) {
        return Err(Refusal::Space);
    }
    let n = board[0] as usize;
    let may = is_id(id) & is_on(&board[..AIR], n, id);
    if !may {
        return Err(Refusal::Call);
    }
    Ok(())
}

// With so many numbers and ids lent to show the board in.
#[tactic(auto, unfolding(crate::specs::Calls::show_answer))]
pub(crate) fn check_show(board: &[u32], numbers: usize, ids: usize) -> Result<(), Refusal>
    ensures { number_of result ≡ show_answer board.now numbers ids }
{
    let space = board_ok(board) & (numbers == 360) & (ids == 360);
    if !space {
        return Err(Refusal::Space);
    }
    Ok(())
}
