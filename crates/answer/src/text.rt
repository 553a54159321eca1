// The text of an answer as far as it is written: texts and numbers, one behind the other.
ghost use Rattle.std.specs.Prelude.{◌≡◌, ◌++◌, ◌+◌, ◌≤◌, List, [], ℕ, length, take, drop};
ghost use Rattle.io.specs.Counts.{IsPrefixLen};
ghost use Rattle.answer.specs.Sizes.{number_bytes, integer_bytes, answer_bytes};
ghost use Rattle.integers.specs.Words.{integer_of};
ghost use Rattle.rules.specs.paper.Decimal.{decimal, integer};
ghost use Rattle.answer.specs.Adding.{Adds};

use crate::ANSWER_BYTES;
use integers::{is_negative, magnitude};
use std::marker::Model;

// A number below 2^64 has at most 20 digits.
const NUMBER_BYTES: usize = 20;

// The first bytes, as many as the length says. Contracts see the list of them.
#[derive(Drop)]
pub(crate) struct Text {
    bytes: [u8; ANSWER_BYTES],
    length: usize,
}

impl Model for Text {
    ghost Value = { List ℕ };

    ghost view = { λ t. take t.length t.bytes };

    ghost invariant = { λ t. t.length ≤ answer_bytes };
}

impl Text {
    pub(crate) fn new() -> Text
        ensures { result ≡ [] }
    {
        Text {
            bytes: [0; ANSWER_BYTES],
            length: 0,
        }
    }

    // A text behind what is there.
    pub(crate) fn put(&mut self, text: &[u8])
        requires { length self.old + length text.now ≤ answer_bytes }
        ensures { Adds (length text.now) self.old text.now self.new }
    {
        let next = self.length + text.len();
        self.bytes[self.length..next].copy_from_slice(text);
        self.length = next;
    }

    // A number in decimal.
    pub(crate) fn put_number(&mut self, number: u64)
        requires { length self.old + number_bytes ≤ answer_bytes }
        ensures { Adds number_bytes self.old (decimal number) self.new }
    {
        let mut digits = [0u8; NUMBER_BYTES];
        let count = io::decimal(number, &mut digits);
        self.put(&digits[..count]);
    }

    // The integer that a word holds, in decimal.
    pub(crate) fn put_integer(&mut self, word: u64)
        requires { length self.old + integer_bytes ≤ answer_bytes }
        ensures { Adds integer_bytes self.old (integer (integer_of word)) self.new }
    {
        if is_negative(word) {
            self.put(b"-");
        }
        self.put_number(magnitude(word));
    }

    // A text, and a number behind it.
    pub(crate) fn put_labelled(&mut self, label: &[u8], number: u64)
        requires { length self.old + length label.now + number_bytes ≤ answer_bytes }
        ensures { Adds (length label.now + number_bytes) self.old (label.now ++ decimal number) self.new }
    {
        self.put(label);
        self.put_number(number);
    }

    // A text, and the integer that a word holds behind it.
    pub(crate) fn put_labelled_integer(&mut self, label: &[u8], word: u64)
        requires { length self.old + length label.now + integer_bytes ≤ answer_bytes }
        ensures { Adds (length label.now + integer_bytes) self.old (label.now ++ integer (integer_of word)) self.new }
    {
        self.put(label);
        self.put_integer(word);
    }

    // The text becomes the first bytes of an output, as many as are returned. The bytes beyond are not written.
    pub(crate) fn copied_to(&self, output: &mut [u8; ANSWER_BYTES]) -> usize
        ensures prefix_len { IsPrefixLen result output.new }
        ensures text { take result output.new ≡ self.now }
        ensures kept { drop result output.new ≡ drop result output.old }
    {
        output[..self.length].copy_from_slice(&self.bytes[..self.length]);
        self.length
    }
}
