#![tactic(auto)]

// Text on a page (`page`), numbers as its digits in a base (`ascii`, specs/Digits.antt), and lists that go
// over others in a lent buffer, whose other elements stay as they were: the buffer afterwards is `laid` of the one
// before (specs/Laid.antt). Big-endian words, and floats by their bits, are written and read back
// (`big_endian`, `patterns`, specs/Patterns.antt); `read-digits` and `write_digits` say that digits
// and number give each other back.
// All calls here but `Page::text` are inner steps of the crates above, which see that there is room.
pub mod ascii;
pub mod big_endian;
pub mod bytes;
pub mod page;
pub mod patterns;
