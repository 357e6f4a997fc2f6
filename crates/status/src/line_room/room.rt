ghost use Rattle.std.specs.Prelude.{◌≡◌, [], IfOk};
ghost use Rattle.std.specs.Fmt.{decimal, signed_decimal};
ghost use Rattle.status.specs.line_room.Room.{Fits, with_text, shown_text, shown_byte as shown_byte_of};

use itoa::Buffer;
use std::alloc::{AllocError, Global};
use std::marker::Model;

/// A buffer with room for so many bytes.
#[derive(Debug, Drop)]
pub struct LineRoom {
    room: usize,
    bytes: Vec<u8>,
}

impl Model for LineRoom {
    ghost use Rattle.std.specs.Prelude.{◌≤◌, length, vec_capacity};
    ghost use Rattle.status.specs.line_room.Room.{RoomValue};

    ghost Value = { RoomValue };

    ghost view = { λ l. record { room = l.room; bytes = l.bytes.items } };

    ghost invariant = { λ l. record {
      kept : l.room ≤ vec_capacity l.bytes;
      within : length l.bytes.items ≤ l.room;
    } };
}

impl LineRoom {
    /// An empty line, with its room reserved.
    pub fn new(alloc: Global, room: usize) -> Result<LineRoom, AllocError>
        ensures { IfOk result (λ line. line ≡ record { room = room; bytes = [] }) }
    {
        Ok(LineRoom {
            room,
            bytes: Vec::with_capacity(alloc, room)?,
        })
    }

    /// What is written.
    pub fn bytes(&self) -> &[u8]
        ensures { result.now ≡ self.now.bytes }
    {
        &self.bytes
    }

    /// Writes nothing.
    pub fn clear(&mut self)
        ensures { self.new ≡ record self.old { bytes = [] } }
    {
        self.bytes.clear();
    }

    /// Writes a text behind what is written.
    pub fn push(&mut self, text: &[u8])
        requires { Fits self.old text.now }
        ensures { self.new ≡ with_text self.old text.now }
    {
        match self.bytes.extend_from_slice(text) {
            Ok(()) => {}
            Err(_) => unreachable!(),
        }
    }

    /// Writes a number.
    pub fn push_number(&mut self, n: u64)
        requires { Fits self.old (decimal n) }
        ensures { self.new ≡ with_text self.old (decimal n) }
    {
        let mut buffer = Buffer::new();
        self.push(buffer.format(n).as_bytes());
    }

    /// Writes a text with a question mark for each control byte, so that it can't end the line.
    pub fn push_shown(&mut self, text: &[u8])
        requires { Fits self.old (shown_text text.now) }
        ensures { self.new ≡ with_text self.old (shown_text text.now) }
    {
        for &byte in text {
            self.push(&[shown_byte(byte)]);
        }
    }

    /// Writes a number with its sign, if it is below 0.
    pub fn push_signed(&mut self, n: i64)
        requires { Fits self.old (signed_decimal n) }
        ensures { self.new ≡ with_text self.old (signed_decimal n) }
    {
        let mut buffer = Buffer::new();
        self.push(buffer.format(n).as_bytes());
    }
}

fn shown_byte(byte: u8) -> u8
    ensures { result ≡ shown_byte_of byte }
{
    if byte < 32 || byte == 127 { b'?' } else { byte }
}
