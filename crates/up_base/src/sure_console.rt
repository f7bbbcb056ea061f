//! A console in memory that never fails.
ghost use Rattle.std.specs.Prelude.{◌≡◌, IfOk, IsOk};
ghost use Rattle.up_base.specs.Outside.{IfTold, IsSaid};
ghost use Rattle.up_base.specs.MemoryTwins.{told};
ghost use Rattle.up_base.specs.SureTwins.{told_said, new_console, after_sure_say};

use crate::speech_buffer::SpeechBuffer;
use crate::{Console, Failed, Mem};
use std::alloc::Global;
use std::marker::Model;

/// A console that keeps what is said in memory that it takes when it is made, and never fails. From the first piece on
/// that does not fit the room that is left, it keeps nothing more and tells nothing.
#[derive(Drop)]
pub struct SureConsole {
    speech: SpeechBuffer,
    is_past: bool,
    made: u64,
}

impl Model for SureConsole {
    ghost use Rattle.up_base.specs.SureTwins.{SureConsoleState};

    ghost Value = { SureConsoleState };

    ghost view = { λ c. record { speech = c.speech; is_past = c.is_past; made = c.made } };
}

impl SureConsole {
    /// A console that has said nothing, and with room for as many bytes.
    pub fn with_room(alloc: Global, bytes: u32) -> Result<SureConsole, Mem>
        ensures { IfOk result (λ c. c ≡ new_console bytes) }
    {
        Ok(SureConsole {
            speech: SpeechBuffer::with_room(alloc, bytes)?,
            is_past: false,
            made: 0,
        })
    }

    /// What was said, of the pieces that were kept.
    pub fn said(&self) -> &[u8]
        ensures { result.now ≡ self.now.speech.said }
    {
        self.speech.said()
    }
}

impl Console for SureConsole {
    ghost said = { told_said };

    ghost faults = { λ _. 0 };

    ghost calls = { λ c. told c.made };

    fn say(&mut self, bytes: &[u8]) -> Result<(), Failed>
        ensures said { IfTold (told_said self.old) (told_said self.new) (IsSaid bytes.now result) }
        ensures ok { IsOk result }
        ensures after { self.new ≡ after_sure_say self.old bytes.now }
    {
        self.made = self.made.saturating_add(1);
        self.is_past = self.is_past || !self.speech.has_room(bytes);
        if !self.is_past {
            self.speech.append(bytes);
        }
        Ok(())
    }
}
