// What is put into a lent buffer, one after the other: numbers, texts, and numbers in plain decimal.
// "Output entries: length of body (4 bytes), kind (2), body; little-endian." "no spaces, numbers in plain decimal"
#![tactic(auto)]

ghost use Rattle.std.specs.Prelude.{◌++◌, ◌+◌, ◌^◌, ◌≤◌, ◌<◌, length};
ghost use Rattle.spec.specs.Lists.{little};
ghost use Rattle.spec.specs.Json.{decimal};
ghost use Rattle.output.specs.Promises.{Puts, PutsFew};

use text::{digits, put_decimal, put_text};

// A lent buffer, and where what is put into it ends. Where that is past the buffer nothing is put, and it is counted all the same.
#[derive(Drop)]
pub struct Output<'a> {
    pub bytes: &'a mut [u8],
    pub end: usize,
}

impl Output<'_> {
    // The bytes of a text, or of a part of a lent buffer.
    pub fn add_text(&mut self, text: &[u8])
        requires { self.old.end + length text.now ≤ 2 ^ 62 }
        ensures { Puts (length text.now) self.old text.now self.new }
    {
        let begin = self.end;
        self.end = begin + text.len();
        if self.end <= self.bytes.len() {
            put_text(self.bytes, begin, text);
        }
    }

    // A number, little-endian, in so many bytes.
    pub fn add<const WIDTH: usize>(&mut self, value: usize)
        requires { (WIDTH ≤ 8) × (self.old.end + WIDTH ≤ 2 ^ 62) }
        ensures { Puts WIDTH self.old (little WIDTH value) self.new }
    {
        let bytes = value.to_le_bytes();
        self.add_text(&bytes[..WIDTH]);
    }

    // What an item begins with: its body's length, and its kind.
    pub fn add_item(&mut self, long: usize, kind: usize)
        requires { self.old.end + 6 ≤ 2 ^ 62 }
        ensures { Puts 6 self.old (little 4 long ++ little 2 kind) self.new }
    {
        self.add::<4>(long);
        self.add::<2>(kind);
    }

    // A number in plain decimal.
    pub fn add_decimal(&mut self, value: usize)
        requires { (value < 65536) × (self.old.end + 5 ≤ 2 ^ 62) }
        ensures { PutsFew 5 self.old (decimal value) self.new }
    {
        let begin = self.end;
        let count = digits(value);
        self.end = begin + count;
        if self.end <= self.bytes.len() {
            put_decimal(self.bytes, begin, value, count);
        }
    }

    // A text, and a number in plain decimal.
    pub fn add_named(&mut self, text: &[u8], value: usize)
        requires { (value < 65536) × (self.old.end + (length text.now + 5) ≤ 2 ^ 62) }
        ensures { PutsFew (length text.now + 5) self.old (text.now ++ decimal value) self.new }
    {
        self.add_text(text);
        self.add_decimal(value);
    }
}
