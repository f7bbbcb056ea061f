//! What command words ask for.

use up_base::{Bytes, Mem, Name, Sequence};

/// The command words, without the program's own name.
pub type Words = Sequence<Bytes>;

/// What the words ask for.
#[derive(Drop)]
pub enum Asked {
    /// The upgrade of a project, by the settings of a file.
    Upgrade { file: Name, settings: Option<Name> },
    /// Whether the upgraded files are what an upgrade would write.
    Check { file: Name, settings: Option<Name> },
    /// The upgrade of a generated project of so many modules.
    Make(u32),
    /// The list of the rules.
    Rules,
}

/// Why the words ask for nothing.
#[derive(Clone, Copy, Debug, PartialEq, Eq)]
pub enum WordsFail {
    /// They are of no form.
    NoForm,
    /// Want of memory.
    Mem,
}

impl From<Mem> for WordsFail {
    ghost use Rattle.std.specs.Prelude.{◌≡◌};
    ghost use Rattle.command_words.specs.declared.asked.WordsFail.TheVariants as fail;

    ghost from_gives = { λ _ e. e ≡ fail.Mem };

    fn from(_: Mem) -> WordsFail {
        WordsFail::Mem
    }
}
