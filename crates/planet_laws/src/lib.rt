// What is true of Planet pattern text. There is no code here: the laws speak of the definitions that
// the contracts of `planet_text` cite, and stand in proofs/Laws.antt. `text_law : TextLaw`
// (specs/TextLaw.antt): every loss above ground is that of `ccirgain`'s numbers, none is below 0, one
// in each part is 0, and the horizontal part is its own mirror image where `ccirgain` is.

#![tactic(auto)]
