// A line of text that is being written, in fixed memory of its own. In a clause a line is its text.
ghost use Rattle.std.specs.Prelude.{◌≡◌, ◌+◌, ◌≤◌, ◌<◌, List, ℕ, [], ◌∷◌, ◌++◌, length, take};
ghost use Rattle.lines.specs.Text.{digits, decimal};

use std::marker::Model;

// No line is longer: two numbers of a fraction, an item, and a map of 64 places.
pub const ROOM: usize = 448;

#[derive(Drop)]
pub struct Line {
    bytes: [u8; ROOM],
    len: usize,
}

impl Model for Line {
    ghost Value = { List ℕ };

    ghost view = { λ l. take l.len l.bytes };

    ghost invariant = { λ l. l.len ≤ 448 };
}

impl Line {
    // A line with no text yet.
    pub fn new() -> Line
        ensures { result ≡ [] }
    {
        Line {
            bytes: [0; ROOM],
            len: 0,
        }
    }

    // Its bytes.
    pub fn text(&self) -> &[u8]
        ensures { result.now ≡ self.now }
    {
        &self.bytes[..self.len]
    }

    // One byte more.
    pub fn push(&mut self, byte: u8)
        requires { length self.old < 448 }
        ensures text { self.new ≡ self.old ++ byte ∷ [] }
        ensures len { length self.new ≡ length self.old + 1 }
    {
        self.bytes[self.len] = byte;
        self.len += 1;
    }

    // The bytes of a word.
    pub fn push_word(&mut self, word: &[u8])
        requires { length self.old + length word.now ≤ 448 }
        ensures text { self.new ≡ self.old ++ word.now }
        ensures len { length self.new ≡ length self.old + length word.now }
    {
        let end = self.len + word.len();
        self.bytes[self.len..end].copy_from_slice(word);
        self.len = end;
    }

    // The last `left` digits of a number, without zeros in front.
    // Kept: digits by our own, and not by the kit's `itoa`: nothing new is to be trusted.
    pub fn push_digits(&mut self, left: usize, n: u64)
        requires { length self.old + length (digits left n) ≤ 448 }
        ensures text { self.new ≡ self.old ++ digits left n }
        ensures len { length self.new ≡ length self.old + length (digits left n) }
    {
        if left == 0 {
            return;
        }
        if n < 10 {
            self.push(48 + n as u8);
            return;
        }
        self.push_digits(left - 1, n / 10);
        self.push(48 + (n % 10) as u8);
    }

    // A number in decimal: at most 20 digits.
    #[tactic(auto, using(crate::proofs::Writing::decimal_most))]
    pub fn push_number(&mut self, n: u64)
        requires { length self.old + length (decimal n) ≤ 448 }
        ensures text { self.new ≡ self.old ++ decimal n }
        ensures len { length self.new ≡ length self.old + length (decimal n) }
        ensures upper_bound { length self.new ≤ length self.old + 20 }
    {
        self.push_digits(20, n);
    }
}
