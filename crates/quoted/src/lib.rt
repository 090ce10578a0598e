// Texts in quotation marks, for definitions: `quoted "level"` is the list of its bytes
// (specs/Quoted.antt), so that a reader sees the words that a program writes. There is no code here:
// in code the same text is `b"level"`.

#![tactic(auto)]
