#![tactic(auto)]

// The lines of Planet pattern text (document 02, card 14), by the numbers of its two parts: each part's
// losses (specs/Losses.antt), and the text `text_of` (specs/Text.antt), which `lines::push_text` writes.
pub mod lines;
pub mod losses;
