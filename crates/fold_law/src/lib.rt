// Issue 27's `--fold` shows a half of a plate apart as folded over: that this half is the other's mirror
// image. There is no code here: the law is `FoldLaw` (specs/FoldLaw.antt), proved in the file of the same
// name in proofs/. It speaks of `heading_of` and `shown_of`, which the contracts of `heading::tell` and
// `shown::show` cite.

#![tactic(auto)]
