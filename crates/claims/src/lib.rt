// What the customer asked to be true of the calls, as sentences that are proved. There is no code
// here: each claim is a record in specs/, whose fields are its sentences, and the file of the same
// name in proofs/ has the theorem. They speak of the definitions that the calls' contracts cite, so
// they hold of whatever the calls answer.
//
// Demand 1: `demand_1 : Demand1`, specs/Demand1.antt. Set-up accepts just when no limit is broken and
// its search is sound; with the record and the table that it left, gain and row answer the source's
// number with its kind, or 10 just where it isn't finite; the program's text is the first refusal's
// line or 360 lines. A refusal leaves what was lent.
//
// The refusals: `refusals : Refusals`, specs/Refusals.antt. Each call refuses under a number just when
// that is the lowest of its table (specs/Tables.antt) whose condition holds.
//
// Demand 3, the mirror law: `mirror_law : MirrorLaw`, specs/MirrorLaw.antt. An antenna that set-up
// accepted, of types 1 to 4 with a slew that truncates to 0 or of types 5 and 6, answers at 360 - v
// what it answers at v, for each whole azimuth but 90 and 270, whatever table it is lent; a curtain
// whose rounded slew is -3 to 3 answers at every azimuth what it answers at its negative.
//
// What it leaves out breaks it: `exceptions : Exceptions`, specs/Exceptions.antt. Four accepted
// stations, with the bits of two answers that differ: a type 2 at 90 and 270, the same with a slew, a
// type 7 and a type 8. Type 9, of which document 01 claims nothing, keeps the law at every whole
// azimuth: `crossed_mirror : CrossedMirror`, specs/CrossedMirror.antt.
//
// The starred edges: `starred_edges : StarredEdges`, specs/StarredEdges.antt. The single cases that
// document 01 stars, in its order, one line each.
//
// Document 02, card 12, the dearest station: `dearest : Dearest`, specs/Dearest.antt. Set-up's search
// takes at most 141 readings, and 90 exactly for an unslewed type other than 4; one station takes
// 141, and one slewed station 140.
//
// Document 02, card 11, the peak is the peak: `peak-is-peak : PeakIsPeak`, specs/PeakIsPeak.antt. Of
// an antenna that set-up accepted, z6 is the greatest of 0 and the gains read in the elevation pass
// and the last azimuth pass; there the gain's number lies between -30 and the larger of -30 and the
// maximum gain; and without slew, outside type 4, the elevation is the last that has the peak.

#![tactic(auto)]
