// A picture is never empty where there is room: `picture` and `pair` draw nothing for a peak over 1,000 dBi,
// and no row that is shown has one. There is no code here: the law is `AlwaysDrawn`
// (specs/AlwaysDrawn.antt), of `svg_in` and `svg_two_in`, which the contracts of `svg_text` cite.

#![tactic(auto)]
