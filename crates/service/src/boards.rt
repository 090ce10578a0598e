// The exercise board, in words that the caller keeps; `board` has what each call does.
ghost use Rattle.std.specs.Prelude.{◌≡◌, length};
ghost use Rattle.board.specs.Calls.{empty_answer, empty_leaves, join_answer, join_leaves, leave_answer, leave_leaves, show_answer, show_numbers, show_ids};

use packed::status;

// An empty board over 6,497 words: 0; or 8 for words of another number.
#[unsafe(no_mangle)]
pub extern "C" fn hf_board_empty(board: &mut [u32]) -> u32
    ensures value { result ≡ empty_answer board.old }
    ensures board_after { board.new ≡ empty_leaves board.old }
{
    status(board::empty(board))
}

// A station joins with its id and its plate row: 0, or the refusal.
#[unsafe(no_mangle)]
pub extern "C" fn hf_board_join(board: &mut [u32], id: u32, row: &[f32]) -> u32
    ensures value { result ≡ join_answer board.old id row.now }
    ensures board_after { board.new ≡ join_leaves board.old id row.now }
{
    status(board::join(board, id, row))
}

// The station of this id leaves: 0, or the refusal.
#[unsafe(no_mangle)]
pub extern "C" fn hf_board_leave(board: &mut [u32], id: u32) -> u32
    ensures value { result ≡ leave_answer board.old id }
    ensures board_after { board.new ≡ leave_leaves board.old id }
{
    status(board::leave(board, id))
}

// The board over 360 numbers and 360 ids: 0, or the refusal.
#[unsafe(no_mangle)]
pub extern "C" fn hf_board_show(board: &[u32], numbers: &mut [f32], ids: &mut [u32]) -> u32
    ensures value { result ≡ show_answer board.now (length numbers.old) (length ids.old) }
    ensures numbers_after { numbers.new ≡ show_numbers board.now numbers.old ids.old }
    ensures ids_after { ids.new ≡ show_ids board.now numbers.old ids.old }
{
    status(board::show(board, numbers, ids))
}
