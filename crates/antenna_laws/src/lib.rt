// What is true of the answers of set-up, gain and row. There is no code here: the laws speak of the
// definitions that the calls' contracts cite (`antenna`, `search`, `plate_row`), so they hold of
// whatever the calls answer, and crates above cite them.
//
// What set-up accepts, and that an accepted number is finite: proofs/Outcomes.antt. With the record
// and the table that set-up left, gain and row are refused for no limit: proofs/Answered.antt. A row's
// numbers are the gain's, with its kinds: proofs/RowGains.antt. What front-to-back says:
// proofs/FrontToBack.antt; that no number of a row is -0: proofs/NoMinusZero.antt. The mirror laws of
// the gain: proofs/Mirror.antt and proofs/CrossedMirror.antt. How often the search reads the gain:
// proofs/ReadingCount.antt; between which numbers the gain lies where it read: proofs/PeakNumbers.antt.

#![tactic(auto)]
