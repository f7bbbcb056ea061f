//! What is said, in memory that was taken beforehand.
ghost use Rattle.std.specs.Prelude.{◌≡◌, true, IfOk};
ghost use Rattle.up_base.specs.MemoryTwins.{no_speech, has_space, spoken};

use crate::Mem;
use std::alloc::Global;
use std::marker::Model;

/// What was said, and how many more bytes there is room for.
#[derive(Drop)]
pub(crate) struct SpeechBuffer {
    said: Vec<u8>,
    bytes_left: u32,
}

impl Model for SpeechBuffer {
    ghost use Rattle.std.specs.Prelude.{◌+◌, ◌≤◌, vec_len, vec_capacity};
    ghost use Rattle.up_base.specs.MemoryTwins.{Speech};

    ghost Value = { Speech };

    ghost view = { λ s. record { said = s.said.items; bytes_left = s.bytes_left } };

    ghost invariant = { λ s. vec_len s.said + s.bytes_left ≤ vec_capacity s.said };
}

impl SpeechBuffer {
    /// Nothing said, and room for as many bytes.
    pub(crate) fn with_room(alloc: Global, bytes: u32) -> Result<SpeechBuffer, Mem>
        ensures { IfOk result (λ s. s ≡ no_speech bytes) }
    {
        Ok(SpeechBuffer {
            said: Vec::with_capacity(alloc, bytes as usize)?,
            bytes_left: bytes,
        })
    }

    /// Whether a piece fits.
    pub(crate) fn has_room(&self, piece: &[u8]) -> bool
        ensures { result ≡ has_space self.now piece.now }
    {
        piece.len() <= self.bytes_left as usize
    }

    /// Puts a piece at the end.
    pub(crate) fn append(&mut self, piece: &[u8])
        requires { has_space self.old piece.now ≡ true }
        ensures { self.new ≡ spoken self.old piece.now }
    {
        let Ok(()) = self.said.extend_from_slice(piece) else {
            unreachable!()
        };
        self.bytes_left -= piece.len() as u32;
    }

    /// What was said.
    pub(crate) fn said(&self) -> &[u8]
        ensures { result.now ≡ self.now.said }
    {
        &self.said
    }
}
