#![tactic(auto)]

// The exercise board of document 02's card 10: stations come on the air and go off, and the board
// keeps the strongest at each of 360 azimuths. It lies in lent words (`board_air`'s
// specs/Words.antt), and each call is an equation with a definition of specs/Calls.antt, whatever
// the words: the first refusal of the card's order with everything lent as it was, or none. A join
// compares the newcomer with what is kept (`board_kept`); a leave works out anew only the azimuths
// where the one who leaves was shown (`board_anew`).
//
// Of every run of joins and leaves from an empty board, refused ones among them (proofs/Runs.antt):
// the board shown is the one worked out afresh from those present (`board_law`, with what is shown
// in `board_air`'s specs/Stations.antt and who is present in its specs/Runs.antt), which is the
// greatest number of them with the lowest id that has it (`strongest_law`); with one more the
// newcomer is shown where it outdoes the one shown before (`join_law`), and with one gone the others
// stay (`leave_law`); each call is answered by who is present (`answers_law`); a seventeenth is
// refused (`seventeenth`) and a place given up can be taken again (`place_again`); the words left
// are accepted, and words accepted are left by some run (`runs_accepted`, `accepted_runs`).
mod accepted;
mod refusal;

ghost use Rattle.std.specs.Prelude.{◌≡◌, length};
ghost use Rattle.answers.specs.Outcome.{number_of};
ghost use Rattle.board.specs.Calls.{empty_answer, empty_leaves, join_answer, join_leaves, leave_answer, leave_leaves, show_answer, show_numbers, show_ids};

use answers::Refusal;
use board_air::AIR;
use board_air::change::{enter, remove, row_bits};
use board_anew::kept::{put_kept, renew};
use board_kept::kept::{put_nobody, raise};
use refusal::{check_join, check_leave, check_show};

// The words of a board: after the air's what it keeps, 360 numbers' bits and 360 ids.
pub(crate) const WORDS: usize = 6497;

// An empty board over any words.
#[tactic(auto, using(crate::proofs::Changes::emptied), unfolding(crate::specs::Calls::empty_answer, crate::specs::Calls::empty_leaves, crate::specs::Calls::unless))]
pub fn empty(board: &mut [u32]) -> Result<(), Refusal>
    ensures value { number_of result ≡ empty_answer board.old }
    ensures board_after { board.new ≡ empty_leaves board.old }
{
    if board.len() != WORDS {
        return Err(Refusal::Space);
    }
    let (air, kept) = board.split_at_mut(AIR);
    air.fill(0);
    put_nobody(kept);
    Ok(())
}

// A station comes on the air, with its id and its plate row.
#[tactic(auto, using(crate::proofs::Changes::refused_stays, crate::proofs::Changes::join_asks), unfolding(crate::specs::Calls::join_leaves))]
pub fn join(board: &mut [u32], id: u32, row: &[f32]) -> Result<(), Refusal>
    ensures value { number_of result ≡ join_answer board.old id row.now }
    ensures board_after { board.new ≡ join_leaves board.old id row.now }
{
    check_join(board, id, row)?;
    let bits = row_bits(row);
    let (air, kept) = board.split_at_mut(AIR);
    enter(air, id, row);
    raise(kept, id, &bits);
    Ok(())
}

// A station goes off the air.
#[tactic(auto, using(crate::proofs::Changes::refused_stays, crate::proofs::Changes::leave_asks), unfolding(crate::specs::Calls::leave_leaves))]
pub fn leave(board: &mut [u32], id: u32) -> Result<(), Refusal>
    ensures value { number_of result ≡ leave_answer board.old id }
    ensures board_after { board.new ≡ leave_leaves board.old id }
{
    check_leave(board, id)?;
    let (air, kept) = board.split_at_mut(AIR);
    remove(air, id);
    renew(kept, air, id);
    Ok(())
}

// The greatest number at each azimuth and the id that has it.
#[tactic(auto, using(crate::proofs::Changes::refused_stays, crate::proofs::Changes::show_asks), unfolding(crate::specs::Calls::show_numbers, crate::specs::Calls::show_ids))]
pub fn show(board: &[u32], numbers: &mut [f32], ids: &mut [u32]) -> Result<(), Refusal>
    ensures value { number_of result ≡ show_answer board.now (length numbers.old) (length ids.old) }
    ensures numbers_after { numbers.new ≡ show_numbers board.now numbers.old ids.old }
    ensures ids_after { ids.new ≡ show_ids board.now numbers.old ids.old }
{
    check_show(board, numbers.len(), ids.len())?;
    let (_, kept) = board.split_at(AIR);
    put_kept(kept, numbers, ids);
    Ok(())
}
