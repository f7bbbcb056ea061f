//! The top call of the upgrade wizard.
#![tactic(auto)]

ghost use Rattle.std.specs.Prelude.{◌≡◌, ◌≢◌, ◌⊎◌, ◌≤◌, ℕ, List, Option, Some, IfSome};
ghost use Rattle.up_base.specs.Outside.{IfTold, Rose};
ghost use Rattle.up_base.specs.declared.place.Fault.{Fault};
ghost use Rattle.vb_tree.specs.Tree.{Project};
ghost use Rattle.project_loader.specs.Held.{HeldProject};
ghost use Rattle.command_words.specs.Asks.{Asks};
ghost use Rattle.command_words.specs.declared.asked.Asked.{Asked};
ghost use Rattle.command_words.specs.declared.asked.Asked.TheVariants as asked;
ghost use Rattle.settings_file.specs.Settings.{Given};
ghost use Rattle.wizard_cli.specs.declared.answer.Answer.{Answer};
ghost use Rattle.wizard_cli.specs.declared.answer.Answer.TheVariants as answer;
ghost use Rattle.wizard_cli.specs.Headline.{IsUpgraded};
ghost use Rattle.wizard_cli.specs.Runs.{AsksFor, IsAnswer, Concludes, EndsAs, HasFault, IsDone, IsStopped};
ghost use Rattle.wizard_cli.specs.Settings.{AreSet, AreRefused};
ghost use Rattle.wizard_cli.specs.Answers.{done_status};

mod answer;
mod checking;
mod commands;
mod making;
mod message;
mod settings;
mod upgrading;
mod writing;

pub use answer::{Answer, Numbers, Status};
pub use command_words::Words;
use commands::answer;
use std::alloc::Global;
use up_base::{Console, Failed, Folder, Outlet};

/// Does what the command words ask for, and says on the console what came of it; the status says it, too.
///
/// `upgrade FILE` reads the project file of that name and the files of its entries from the folder, and puts the files of the .NET project
/// whose clean procedures do the same under `upgraded/` into the outlet, with a report of the rules that its lines break. `check FILE`
/// compares them with the files that the folder has there. Behind `--settings` both take the name of a file that sets the target and the
/// note. `make N` translates a generated project of so many modules in memory and says what there is in it. `rules` lists the rules.
pub fn run<F: Folder, O: Outlet, C: Console>(
    alloc: Global,
    words: &Words,
    folder: &mut F,
    outlet: &mut O,
    console: &mut C,
) -> Status
    // How the run came to its answer, what the outlet holds then, and what is said of it.
    ensures answered { (a : Answer)
        × IsAnswer words.now (record { held = F.held folder.old; reads_before = F.calls folder.old; reads_after = F.calls folder.new; outlet_before = O.held outlet.old; outlet_after = O.held outlet.new; puts_before = O.calls outlet.old; puts_after = O.calls outlet.new }) (outlet.new ≡ outlet.old) (folder.new ≡ folder.old) a
        × Concludes a (C.said console.old) (C.said console.new) result }

    // The headline: a project that was upgraded was so in every way that is promised.
    ensures upgraded { IsDone result → (file : List ℕ) (settings : Option (List ℕ)) → Asks words.now (asked.Upgrade file settings)
        → IfSome (F.held folder.old) (λ files. IfTold (O.held outlet.old) (O.held outlet.new) (λ before after. (count : ℕ) × (result ≡ done_status count) × IsUpgraded files file settings count before after)) }

    // Words that ask for nothing are told so.
    ensures no_words { ((a : Asked) → ¬ (Asks words.now a)) → (result ≡ Status.BadWords) ⊎ (result ≡ Status.OutOfMemory) ⊎ (result ≡ Status.ConsoleFault) }

    // Settings that are absent, too long or not of their form are refused before the project is read, unless a call of the outside or the memory failed.
    ensures settings_refused { (file said : List ℕ) → AsksFor words.now file (Some said) → IfSome (F.held folder.old) (λ files. AreRefused files said
        → EndsAs (answer.SettingsRefused said) (C.said console.old) (C.said console.new) result ⊎ IsStopped result) }

    // A project with a fault is refused for its first one, unless a call of the outside or the memory failed before.
    ensures refused { (file : List ℕ) (settings : Option (List ℕ)) → AsksFor words.now file settings → IfSome (F.held folder.old) (λ files. (said : List ℕ) (fault : Fault) → HasFault files file settings said fault
        → EndsAs (answer.Refused said fault) (C.said console.old) (C.said console.new) result ⊎ IsStopped result) }

    // A project of the grammar is upgraded where no call of the outside failed and there was memory, and its check says that all is the same or what differs.
    ensures completed { (file : List ℕ) (settings : Option (List ℕ)) → Asks words.now (asked.Upgrade file settings) → IfSome (F.held folder.old) (λ files. (given : Given) (P : Project) → AreSet files settings given → HeldProject files file P
        → ¬ (Rose (F.faults folder.old) (F.faults folder.new)) → ¬ (Rose (O.faults outlet.old) (O.faults outlet.new)) → ¬ (Rose (C.faults console.old) (C.faults console.new))
        → IsDone result ⊎ (result ≡ Status.OutOfMemory)) }
    ensures completed_check { (file : List ℕ) (settings : Option (List ℕ)) → Asks words.now (asked.Check file settings) → IfSome (F.held folder.old) (λ files. (given : Given) (P : Project) → AreSet files settings given → HeldProject files file P
        → ¬ (Rose (F.faults folder.old) (F.faults folder.new)) → ¬ (Rose (C.faults console.old) (C.faults console.new))
        → IsDone result ⊎ (result ≡ Status.Differs) ⊎ (result ≡ Status.OutOfMemory)) }

    // Make and rules are done where the console didn't fail and there was memory.
    ensures completed_make { (modules : ℕ) → Asks words.now (asked.Make modules) → ¬ (Rose (C.faults console.old) (C.faults console.new)) → IsDone result ⊎ (result ≡ Status.OutOfMemory) }
    ensures completed_rules { Asks words.now asked.Rules → ¬ (Rose (C.faults console.old) (C.faults console.new)) → (result ≡ Status.Done) ⊎ (result ≡ Status.OutOfMemory) }

    // The outlet changes only where a run is done, or stopped at the outlet, or was to say one of these.
    ensures untouched { ¬ (IsDone result) → result ≢ Status.WriteFault → result ≢ Status.ConsoleFault → outlet.new ≡ outlet.old }

    // An upgrade alone changes the outlet, and make and rules don't call the folder.
    ensures unwritten { ((file : List ℕ) (settings : Option (List ℕ)) → ¬ (Asks words.now (asked.Upgrade file settings))) → outlet.new ≡ outlet.old }
    ensures unread { ((file : List ℕ) (settings : Option (List ℕ)) → ¬ (AsksFor words.now file settings)) → folder.new ≡ folder.old }

    // Each fault has its cause.
    ensures read_fault { result ≡ Status.ReadFault → Rose (F.faults folder.old) (F.faults folder.new) }
    ensures write_fault { result ≡ Status.WriteFault → Rose (O.faults outlet.old) (O.faults outlet.new) }
    ensures console_fault { result ≡ Status.ConsoleFault → Rose (C.faults console.old) (C.faults console.new) }
{
    let answer = answer(alloc, words, folder, outlet);
    match console.say(answer.message().as_slice()) {
        Ok(()) => answer.status(),
        Err(Failed) => Status::ConsoleFault,
    }
}
