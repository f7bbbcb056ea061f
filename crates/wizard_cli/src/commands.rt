//! What is done for command words.
ghost use Rattle.std.specs.Prelude.{◌≡◌, ◌≤◌, ℕ, List, Option};
ghost use Rattle.up_base.specs.Outside.{Rose};
ghost use Rattle.command_words.specs.Asks.{Asks};
ghost use Rattle.command_words.specs.declared.asked.Asked.TheVariants as asked;
ghost use Rattle.wizard_cli.specs.Runs.{AsksFor, IsAnswer, OnFault};

use crate::answer::Answer;
use crate::checking::check;
use crate::making::make;
use crate::upgrading::upgrade;
use command_words::{Asked, Words, WordsFail, read_words};
use std::alloc::Global;
use up_base::{Folder, Outlet};

/// Does what the words ask for.
pub(crate) fn answer<F: Folder, O: Outlet>(
    alloc: Global,
    words: &Words,
    folder: &mut F,
    outlet: &mut O,
) -> Answer
    ensures answer { IsAnswer words.now (record { held = F.held folder.old; reads_before = F.calls folder.old; reads_after = F.calls folder.new; outlet_before = O.held outlet.old; outlet_after = O.held outlet.new; puts_before = O.calls outlet.old; puts_after = O.calls outlet.new }) (outlet.new ≡ outlet.old) (folder.new ≡ folder.old) result }
    ensures failed { OnFault result (Rose (F.faults folder.old) (F.faults folder.new)) (Rose (O.faults outlet.old) (O.faults outlet.new)) }

    // An upgrade alone writes, and make and rules read nothing.
    ensures unwritten { ((file : List ℕ) (settings : Option (List ℕ)) → ¬ (Asks words.now (asked.Upgrade file settings))) → outlet.new ≡ outlet.old }
    ensures unread { ((file : List ℕ) (settings : Option (List ℕ)) → ¬ (AsksFor words.now file settings)) → folder.new ≡ folder.old }
{
    match read_words(alloc, words) {
        Ok(Asked::Upgrade { file, settings }) => upgrade(alloc, &file, settings, folder, outlet),
        Ok(Asked::Check { file, settings }) => check(alloc, &file, settings, folder),
        Ok(Asked::Make(modules)) => make(alloc, modules),
        Ok(Asked::Rules) => Answer::Rules,
        Err(WordsFail::NoForm) => Answer::BadWords,
        Err(WordsFail::Mem) => Answer::OutOfMemory,
    }
}
