#![tactic(auto)]

// Numbers in hundredths (document 02, card 14). A float's exact value becomes whole hundredths, the
// nearest, halves away from zero (`hundredths_of`, specs/Hundredths.antt), and hundredths are written
// with two decimals, zero without a sign (`two_decimals`, specs/Decimals.antt). What is known of both
// stands by name in proofs/Nearest.antt and proofs/Text.antt.
// Code holds hundredths raised by 100,000, so that those of a number in span (`in_span`, at most 1,000
// in size) are from 0 to 200,000 (`raised_of`; `lowered` goes back, specs/Raised.antt): the greater
// raised is the greater number, and the difference of two is that of the hundredths.
pub mod decimals;
pub mod rounding;
