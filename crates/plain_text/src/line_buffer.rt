//! A buffer in which a line is written piece by piece. Its room is reserved once, so that writing
//! never wants memory. Contracts see it as its bytes.

ghost use Rattle.std.specs.Prelude.{◌≡◌, ◌+◌, ◌*◌, ◌<◌, ◌≤◌, ◌++◌, [], false, length, drop, take, IfOk};
ghost use Rattle.std.specs.Fmt.{decimal, digit_glyph};
ghost use Rattle.plain_text.specs.Printing.{hexadecimal, pairs};

use std::alloc::{AllocError, Global};
use std::marker::Model;

/// The bytes of a line, and room for `LineBuffer::ROOM` bytes, which is reserved once.
///
/// All the room is there from the start, and the line is its front, so that a piece is copied to its
/// place and nothing has to grow.
#[derive(Drop)]
pub struct LineBuffer {
    room: Vec<u8>,
    end: usize,
}

impl Model for LineBuffer {
    ghost use Rattle.std.specs.Prelude.{◌≡◌, ℕ, ◌≤◌, List, length, take};

    ghost Value = { List ℕ };

    ghost view = { λ line. take line.end line.room.items };

    ghost invariant = { λ line. (line.end ≤ 16384) × (length line.room.items ≡ 16384) };
}

impl LineBuffer {
    /// How many bytes there is room for, which is more than the longest line of the project takes.
    pub const ROOM: usize = 16_384;

    /// An empty buffer, or `AllocError` where memory is wanting. This call alone takes memory.
    pub fn new(alloc: Global) -> Result<LineBuffer, AllocError>
        ensures { IfOk result (λ line. line ≡ []) }
    {
        let mut room = Vec::new(alloc);
        room.resize(Self::ROOM, 0)?;
        Ok(LineBuffer { room, end: 0 })
    }

    /// The bytes that have been written.
    pub fn bytes(&self) -> &[u8]
        ensures { result.now ≡ self.now }
    {
        &self.room[..self.end]
    }

    /// Drops all bytes and keeps the room.
    pub fn clear(&mut self)
        ensures { self.new ≡ [] }
    {
        self.end = 0;
    }

    /// Writes a text behind the bytes that are there. There has to be room for it.
    pub fn push(&mut self, text: &[u8])
        requires { length self.old + length text.now ≤ LineBuffer.ROOM }
        ensures text { self.new ≡ self.old ++ text.now }
        ensures room { length self.new ≡ length self.old + length text.now }
    {
        write_at(&mut self.room, self.end, text);
        self.end += text.len();
    }

    /// Writes a number in decimal, in at most 20 digits.
    pub fn push_decimal(&mut self, number: u64)
        requires { length self.old + 20 ≤ LineBuffer.ROOM }
        ensures text { self.new ≡ self.old ++ decimal number }
        ensures room { length self.new ≤ length self.old + 20 }
    {
        if number < 10 {
            return self.push(&[b'0' + number as u8]);
        }
        let mut buffer = itoa::Buffer::new();
        self.push(buffer.format(number).as_bytes());
    }

    /// Writes a number in hexadecimal, in lower case, without zeros at the front and in at most 32
    /// digits.
    pub fn push_hexadecimal(&mut self, number: u128)
        requires { length self.old + 32 ≤ LineBuffer.ROOM }
        ensures text { self.new ≡ self.old ++ hexadecimal number }
        ensures room { length self.new ≤ length self.old + 32 }
    {
        let mut digits = [0; 32];
        let start = write_hexadecimal(number, &mut digits);
        self.push(&digits[start..]);
    }

    /// Writes two hexadecimal digits in lower case for each byte, the upper digit first.
    #[tactic(auto, unfolding(crate::specs::Printing::pairs))]
    pub fn push_pairs(&mut self, bytes: &[u8])
        requires { length self.old + 2 * length bytes.now ≤ LineBuffer.ROOM }
        ensures text { self.new ≡ self.old ++ pairs bytes.now }
        ensures room { length self.new ≡ length self.old + 2 * length bytes.now }
    {
        for byte in bytes {
            self.push(&[glyph(*byte / 16), glyph(*byte % 16)]);
        }
    }
}

// Writes a text over the bytes from a place on.
fn write_at(room: &mut [u8], place: usize, text: &[u8])
    requires { place + length text.now ≤ length room.old }
    ensures written { take (place + length text.now) room.new ≡ take place room.old ++ text.now }
    ensures len { length room.new ≡ length room.old }
{
    room[place..place + text.len()].copy_from_slice(text);
}

// Writes the digits of a number to the end of the array, and answers where they begin.
fn write_hexadecimal(number: u128, digits: &mut [u8; 32]) -> usize
    ensures text { drop result digits.new ≡ hexadecimal number }
    ensures within { result < 32 }
{
    let mut rest = number;
    let mut start = 32;
    loop {
        start -= 1;
        digits[start] = glyph((rest % 16) as u8);
        rest /= 16;
        if rest == 0 {
            return start;
        }
    }
}

// The digit that writes a number below 16.
fn glyph(digit: u8) -> u8
    requires { digit < 16 }
    ensures { result ≡ digit_glyph false digit }
{
    if digit < 10 {
        b'0' + digit
    } else {
        b'a' + (digit - 10)
    }
}
