//! A text that takes no memory.
ghost use Rattle.std.specs.Prelude.{◌≡◌, ◌+◌, ◌<◌, ◌≤◌, ◌^◌, List, [], ◌∷◌, ◌++◌, length};
ghost use Rattle.std.specs.Fmt.{decimal};

use std::marker::Model;

/// More than the bytes of the longest message, which lists the rules. A name has at most 512 bytes, and what stands around it fewer than 80.
pub(crate) const CAPACITY: usize = 1024;

/// A list of at most 1024 bytes. Contracts see it as that list.
#[derive(Drop)]
pub(crate) struct Message {
    bytes: [u8; 1024],
    used: usize,
}

impl Model for Message {
    ghost use Rattle.std.specs.Prelude.{◌≤◌, List, ℕ, take};

    ghost Value = { List ℕ };

    ghost view = { λ m. take m.used m.bytes };

    ghost invariant = { λ m. m.used ≤ 1024 };
}

impl Message {
    pub(crate) fn new() -> Self
        ensures { result ≡ [] }
    {
        Message {
            bytes: [0; 1024],
            used: 0,
        }
    }

    pub(crate) fn push(&mut self, byte: u8)
        requires { length self.old < 1024 }
        ensures { self.new ≡ self.old ++ byte ∷ [] }
    {
        self.bytes[self.used] = byte;
        self.used += 1;
    }

    pub(crate) fn as_slice(&self) -> &[u8]
        ensures { result.now ≡ self.now }
    {
        &self.bytes[..self.used]
    }
}

/// Appends a text.
pub(crate) fn push_text(message: &mut Message, text: &[u8])
    requires { length message.old + length text.now ≤ 1024 }
    ensures text { message.new ≡ message.old ++ text.now }
    ensures len { length message.new ≡ length message.old + length text.now }
{
    for byte in text {
        message.push(*byte);
    }
}

/// Appends a number in decimal digits.
pub(crate) fn push_number(message: &mut Message, n: u64)
    requires { length message.old + 20 ≤ 1024 }
    ensures digits { message.new ≡ message.old ++ decimal n }
    ensures len { length message.new ≤ length message.old + 20 }
{
    push_digits(message, n);
}

// Appends the digits of a number, for which there is room.
fn push_digits(message: &mut Message, n: u64)
    requires { length message.old + length (decimal n) ≤ 1024 }
    ensures { message.new ≡ message.old ++ decimal n }
{
    if n < 10 {
        message.push(48 + n as u8);
        return;
    }
    push_digits(message, n / 10);
    message.push(48 + (n % 10) as u8);
}
