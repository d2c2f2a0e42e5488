// The output: text that is put together before it is printed.
ghost use Rattle.std.specs.Prelude.{◌≡◌, List, ℕ, [], ◌++◌, ◌+◌, ◌*◌, ◌≤◌, length};
ghost use Rattle.program.specs.Print.{decimal};
ghost use Rattle.program.specs.Workers.{numbers_text};

use arrayvec::ArrayString;
use std::marker::Model;

// Room for the lines of 64 steps, of at most 129 bytes each.
pub const ROOM: usize = 8256;

#[derive(Drop)]
pub struct Output {
    text: ArrayString<ROOM>,
}

// Clauses see the text.
impl Model for Output {
    ghost Value = { List ℕ };

    ghost view = { λ out. out.text.bytes };
}

impl Output {
    pub fn new() -> Self
        ensures { result ≡ [] }
    {
        Output {
            text: ArrayString::new(),
        }
    }

    pub fn as_bytes(&self) -> &[u8]
        ensures { result.now ≡ self.now }
    {
        self.text.as_str().as_bytes()
    }

    pub fn clear(&mut self)
        ensures { self.new ≡ [] }
    {
        self.text.clear();
    }

    // A word, and after it numbers with a blank before each; the line ends there. By hand: no clause says that a write! succeeds.
    #[tactic(auto, using(crate::proofs::text::TextLaws::numbers_turn, crate::proofs::text::TextLaws::numbers_end))]
    pub fn put_words(&mut self, word: &str, numbers: &[u64])
        requires { length self.old + length word.now + 21 * length numbers.now + 1 ≤ ROOM }
        ensures text { self.new ≡ self.old ++ (word.now ++ numbers_text numbers.now) }
        ensures len { length self.new ≤ length self.old + length word.now + 21 * length numbers.now + 1 }
    {
        self.put(word);
        for n in numbers {
            self.put(" ");
            self.put_number(*n);
        }
        self.put("\n");
    }

    #[tactic(auto, using(crate::proofs::text::TextLaws::written_is))]
    pub fn put_number(&mut self, n: u64)
        requires { length self.old + 20 ≤ ROOM }
        ensures text { self.new ≡ self.old ++ decimal n }
        ensures len { length self.new ≤ length self.old + 20 }
    {
        let mut digits = itoa::Buffer::new();
        self.put(digits.format(n));
    }

    fn put(&mut self, text: &str)
        requires { length self.old + length text.now ≤ ROOM }
        ensures text { self.new ≡ self.old ++ text.now }
        ensures len { length self.new ≡ length self.old + length text.now }
    {
        self.text.push_str(text);
    }
}
