//! A console in memory.
ghost use Rattle.std.specs.Prelude.{◌≡◌, ◌≤◌, ◌↔◌, true, Some, IfOk, IsErr};
ghost use Rattle.up_base.specs.Outside.{Rose, CountsCall, IsSaid};
ghost use Rattle.up_base.specs.MemoryTwins.{no_calls, told, no_speech, say_fails, after_say};

use crate::call_counts::CallCounts;
use crate::speech_buffer::SpeechBuffer;
use crate::{Console, Failed, Mem};
use std::alloc::Global;
use std::marker::Model;

/// A console that keeps what is said in memory that it takes when it is made. Its calls fail exactly where their numbers
/// are listed or the piece does not fit the room that is left.
#[derive(Drop)]
pub struct MemoryConsole {
    speech: SpeechBuffer,
    counts: CallCounts,
}

impl Model for MemoryConsole {
    ghost use Rattle.up_base.specs.MemoryTwins.{ConsoleState};

    ghost Value = { ConsoleState };

    ghost view = { λ c. record { speech = c.speech; calls = c.counts } };
}

impl MemoryConsole {
    /// A console that has said nothing, and with room for as many bytes. `calls` has the numbers, from 1, of the calls
    /// that fail.
    pub fn with_room(alloc: Global, bytes: u32, calls: Vec<u32>) -> Result<MemoryConsole, Mem>
        ensures speech { IfOk result (λ c. c.speech ≡ no_speech bytes) }
        ensures calls { IfOk result (λ c. c.calls ≡ no_calls calls.items) }
    {
        Ok(MemoryConsole {
            speech: SpeechBuffer::with_room(alloc, bytes)?,
            counts: CallCounts::new(calls),
        })
    }

    /// What was said.
    pub fn said(&self) -> &[u8]
        ensures { result.now ≡ self.now.speech.said }
    {
        self.speech.said()
    }
}

impl Console for MemoryConsole {
    ghost said = { λ c. Some c.speech.said };

    ghost faults = { λ c. c.calls.faults };

    ghost calls = { λ c. told c.calls.made };

    /// A call that fails appends nothing.
    fn say(&mut self, bytes: &[u8]) -> Result<(), Failed>
        ensures said { IsSaid bytes.now result self.old.speech.said self.new.speech.said }
        ensures failed { IsErr result → Rose self.old.calls.faults self.new.calls.faults }
        ensures faults { self.old.calls.faults ≤ self.new.calls.faults }
        ensures calls { CountsCall (told self.old.calls.made) (told self.new.calls.made) }
        ensures fails { IsErr result ↔ (say_fails self.old bytes.now ≡ true) }
        ensures after { self.new ≡ after_say self.old bytes.now }
    {
        let has_room = self.speech.has_room(bytes);
        if self.counts.count(has_room) {
            return Err(Failed);
        }
        self.speech.append(bytes);
        Ok(())
    }
}
