//! In which files issues stand.
ghost use Rattle.std.specs.Prelude.{suc, ◌<◌, List, length};
ghost use Rattle.std.specs.List.{All};
ghost use Rattle.up_base.specs.declared.issue.Issue.{Issue};
ghost use Rattle.vb_tree.specs.Tree.{Project};
ghost use Rattle.project_loader.specs.Held.{IsOfGrammar};
ghost use Rattle.broken_rules.specs.Broken.{AreBroken};

/// A law: each issue of a project of the grammar stands in a file of it: 0 is the project file, and k that of the k-th entry.
#[tactic(auto, using(crate::proofs::Places::places_are_named))]
pub fn places_are_named()
    ensures { (P : Project) (issues : List Issue) → IsOfGrammar P → AreBroken P issues → All (λ (i : Issue). i.place.file < suc (length P.file.entries)) issues }
{}
