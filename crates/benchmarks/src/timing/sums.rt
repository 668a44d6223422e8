//! Sums that show whether two programs saw the same numbers in the same order.

use heap_model::{Name, Refusal};
use std::io;

/// The sum of the numbers seen so far. It is rotated by 5 bits before each is added, so the order
/// counts.
#[derive(Clone, Copy)]
pub(crate) struct Sum(pub(crate) u32);

impl Sum {
    #[inline]
    pub(crate) fn add(&mut self, number: u32) {
        self.0 = self.0.rotate_left(5).wrapping_add(number);
    }

    /// Adds the first byte and the last.
    #[inline]
    pub(crate) fn add_ends(&mut self, bytes: &[u8]) {
        if let (Some(first), Some(last)) = (bytes.first(), bytes.last()) {
            self.add(*first as u32);
            self.add(*last as u32);
        }
    }

    #[inline]
    pub(crate) fn add_refusal(&mut self, refusal: Refusal) {
        self.add(refusal.number() as u32);
    }

    /// Adds the number of a refusal, or 0 if there is none.
    #[inline]
    pub(crate) fn add_done(&mut self, done: Result<(), Refusal>) {
        match done {
            Ok(()) => self.add(0),
            Err(refusal) => self.add_refusal(refusal),
        }
    }

    /// Adds the returned number, or the number of a refusal.
    #[inline]
    pub(crate) fn add_number(&mut self, number: Result<u32, Refusal>) {
        match number {
            Ok(number) => self.add(number),
            Err(refusal) => self.add_refusal(refusal),
        }
    }

    /// Adds the returned byte, or the number of a refusal.
    #[inline]
    pub(crate) fn add_byte(&mut self, byte: Result<u8, Refusal>) {
        match byte {
            Ok(byte) => self.add(byte as u32),
            Err(refusal) => self.add_refusal(refusal),
        }
    }

    /// Adds the returned name, or the number of a refusal.
    #[inline]
    pub(crate) fn add_name(&mut self, name: Result<Name, Refusal>) {
        match name {
            Ok(name) => self.add(name.0),
            Err(refusal) => self.add_refusal(refusal),
        }
    }

    /// Returns the sum of the words of an image or of a file.
    pub(crate) fn of_words(bytes: &[u8]) -> Sum {
        let mut sum = Sum(0);
        for word in bytes.as_chunks().0 {
            sum.add(u32::from_be_bytes(*word));
        }
        sum
    }
}

/// The sum of all replies, and the sum of the words of the images at the end.
#[derive(Clone, Copy)]
pub(crate) struct Sums {
    pub(crate) replies: Sum,
    pub(crate) words: Sum,
}

impl Sums {
    /// Returns the sums of no replies and no words.
    pub(crate) fn new() -> Sums {
        Sums {
            replies: Sum(0),
            words: Sum(0),
        }
    }

    /// Adds the sum of some replies, and the sum of the words of the image after them.
    pub(crate) fn add(&mut self, replies: Sum, image: &[u8]) {
        self.replies.add(replies.0);
        self.words.add(Sum::of_words(image).0);
    }

    /// Prints both sums.
    pub(crate) fn print(self, rt: &impl Print) -> io::Result<()> {
        println!(rt; "replies {} words {}", self.replies.0, self.words.0)
    }
}
