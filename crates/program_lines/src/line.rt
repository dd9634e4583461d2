// Splits a line of standard input into its words and its label.
ghost use Rattle.std.specs.Prelude.{◌≤◌, max, length};

use crate::{ROOM, input};

// Returns the first place from `from` on that holds the octet x. Where there is none, it returns the end, or `from` if that lies beyond.
pub fn find(s: &[u8], from: usize, x: u8) -> usize
    ensures lower_bound { from ≤ result }
    ensures upper_bound { result ≤ max from (length s.now) }
{
    match s
        .get(from..)
        .and_then(|rest| rest.iter().position(|c| *c == x))
    {
        Some(k) => from + k,
        None => from.max(s.len()),
    }
}

// A line, without the newline that ends it.
#[derive(Clone, Copy)]
pub struct Line<'a> {
    pub text: &'a [u8],
}

impl<'a> Line<'a> {
    // Returns the first letter, none for an empty line.
    pub fn letter(self) -> Option<u8> {
        self.text.first().copied()
    }

    // Returns the k-th word, from 0; none where the line has fewer words.
    pub fn word(self, k: usize) -> Option<&'a [u8]> {
        self.text.split(|x| *x == b' ').nth(k)
    }

    // Returns the k-th word as a number, 0 for a word that is not there.
    pub fn number(self, k: usize) -> u64 {
        input::number_in(self.word(k).unwrap_or(b""))
    }

    // Returns the k-th word as the size of a buffer, at most the size of the buffers in the programs.
    pub fn room(self, k: usize) -> usize
        ensures { result ≤ 65546 }
    {
        self.number(k).min(ROOM as u64) as usize
    }

    // Stores the octets of the k-th word at the front of a buffer of zeros, and returns them; no octets where the buffer is too short.
    pub fn octets<'b>(self, k: usize, buffer: &'b mut [u8; ROOM]) -> &'b [u8] {
        let n = input::store(self.word(k).unwrap_or(b""), buffer);
        buffer.get(..n).unwrap_or(b"")
    }

    // Returns the label, which follows the mark # and a space.
    pub fn label(self) -> &'a [u8] {
        let mark = find(self.text, 0, b'#');
        self.text.get(mark + 2..).unwrap_or(b"")
    }
}
