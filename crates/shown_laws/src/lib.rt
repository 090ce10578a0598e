// What is true of every plate that is shown, of a station or a curtain: it has an entry for each
// azimuth, each the hundredths of a gain of at most 1,000 dB in size. There is no code here: the law is
// `ShownLaw` (specs/ShownLaw.antt), of `shown_of`, which the contract of `shown::show` cites.

#![tactic(auto)]
