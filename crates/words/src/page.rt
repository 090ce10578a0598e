// A page of text, written from its start on. Clauses see the text so far, and what a writer adds to it is
// `Put` (specs/Writing.antt), in at most so many bytes; it asks for that room by the page's length and N.
ghost use Rattle.std.specs.Prelude.{◌≡◌, ◌+◌, ◌^◌, ◌≤◌, ◌<◌, List, ℕ, [], ◌∷◌, ◌++◌, length, take};
ghost use Rattle.words.specs.Writing.{Put, Wrote};

use crate::bytes::push_bytes;
use std::marker::Model;

// At most N bytes.
#[derive(Drop)]
pub struct Page<const N: usize> {
    bytes: [u8; N],
    len: usize,
}

impl<const N: usize> Model for Page<N> {
    ghost Value = { List ℕ };

    ghost view = { λ p. take p.len p.bytes };

    ghost invariant = { λ p. p.len ≤ N };
}

impl<const N: usize> Page<N> {
    pub fn new() -> Self
        requires { N < 2 ^ 63 }
        ensures { result ≡ [] }
    {
        Page {
            bytes: [0; N],
            len: 0,
        }
    }

    pub fn push(&mut self, b: u8)
        requires { length self.old + 1 ≤ N }
        ensures { Put 1 self.old (b ∷ []) self.new }
    {
        self.bytes[self.len] = b;
        self.len += 1;
    }

    #[tactic(auto, using(crate::proofs::Writing::laid_put))]
    pub fn push_bytes(&mut self, s: &[u8])
        requires { length self.old + length s.now ≤ N }
        ensures { Put (length s.now) self.old s.now self.new }
    {
        let all = &mut self.bytes[..];
        self.len = push_bytes(all, self.len, s);
    }

    pub fn text(&self) -> &[u8]
        ensures { result.now ≡ self.now }
    {
        &self.bytes[..self.len]
    }
}

// Writes the page's text over the buffer's first bytes, and returns its length.
pub fn put_page<const N: usize>(page: &Page<N>, out: &mut [u8]) -> usize
    requires { length page.now ≤ length out.old }
    ensures { Wrote out.old 0 page.now out.new result }
{
    push_bytes(out, 0, page.text())
}
