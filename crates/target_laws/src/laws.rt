//! That control goes the same ways in what is written.
ghost use Rattle.std.specs.Prelude.{◌≡◌, ◌≤◌, ℕ, true, false, not, List, length, map, Option, slice_get};
ghost use Rattle.std.specs.List.{list_all};
ghost use Rattle.vb_tree.specs.FlatLines.{code_lines, flat_lines};
ghost use Rattle.vb_tree.specs.declared.form_parts.Label6.{Label6};
ghost use Rattle.vb_tree.specs.Tree.{Nodes};
ghost use Rattle.net_tree.specs.declared.declaration.NetClose.{NetClose};
ghost use Rattle.net_tree.specs.FlatLines as net_flat;
ghost use Rattle.net_tree.specs.Tree.{Head};
ghost use Rattle.bound_tree.specs.declared.rule_set.RuleSet.{RuleSet};
ghost use Rattle.bound_tree.specs.Labels.{Label, label_of, label_at, labels};
ghost use Rattle.bound_tree.specs.Targets.{plain, step_of};
ghost use Rattle.bound_tree.specs.Tree.{Line, Program};
ghost use Rattle.written_trees.specs.Bodies.{inside_procedure, procedure_with};
ghost use Rattle.written_trees.specs.Bodies as bound;
ghost use Rattle.written_trees.specs.Lines.{jump, written_line};
ghost use Rattle.written_trees.specs.Names.{Scope};
ghost use Rattle.written_trees.specs.Placing.{Placed};
ghost use Rattle.vb6_run.specs.Forms.{SourceLine, body_of, tests_in};
ghost use Rattle.vb6_run.specs.Lines.{lines_in};
ghost use Rattle.net_run.specs.Lines.{NetLine, target_of};
ghost use Rattle.net_run.specs.Members.{Code};
ghost use Rattle.net_run.specs.Program as net_program;
ghost use Rattle.net_run.specs.Steps as net_steps;
ghost use Rattle.target_laws.specs.Kept.{AreBound, code_of, is_unsigned, is_unsigned_in, keep_steps, keep_tests, keeps_label, keeps_step, keeps_tests, written_from};

/// A law: what is written for a line opens, parts or closes what the line does, if it keeps that.
pub fn same_step()
    ensures { (S : Scope) (labels : List (Option Label)) (rules : RuleSet) (k : ℕ) (l : Line) → keeps_step rules l ≡ true
        → net_steps.step_of (written_line S labels rules k l) ≡ step_of l.source.form }
{}

/// A law: and only then; otherwise it is a plain line.
pub fn other_step()
    ensures { (S : Scope) (labels : List (Option Label)) (rules : RuleSet) (k : ℕ) (l : Line) → keeps_step rules l ≡ false
        → net_steps.step_of (written_line S labels rules k l) ≡ plain }
{}

/// A law: what is written for a head or a closing line of a block computes something where the line does, if it keeps that.
pub fn same_test()
    ensures { (S : Scope) (labels : List (Option Label)) (rules : RuleSet) (k : ℕ) (l : Line) → keeps_tests rules l ≡ true
        → net_steps.tests (written_line S labels rules k l) ≡ tests_in l.source.form }
{}

/// A law: and only then.
pub fn other_test()
    ensures { (S : Scope) (labels : List (Option Label)) (rules : RuleSet) (k : ℕ) (l : Line) → keeps_tests rules l ≡ false
        → net_steps.tests (written_line S labels rules k l) ≡ not (tests_in l.source.form) }
{}

/// A law: the code lines of a procedure are what is written for the lines that are bound in it, one by one.
pub fn lines_in_order()
    ensures { (P : Program) (S : Scope) (p : Placed) (body : Nodes) (head : Head) (close : NetClose)
        → net_flat.code_lines (procedure_with P S p body head close)
        ≡ written_from (inside_procedure S p.at.procedure) (labels (flat_lines body)) 0 (code_of P S p body) }
{}

/// A law: from each code line of a procedure control goes to the lines of the numbers to which it goes from the line of the source, if
/// no more lines are bound than there are code lines, and what is written for each opens, parts and closes what it does.
pub fn same_aims()
    ensures { (P : Program) (S : Scope) (p : Placed) (body : Nodes) (head : Head) (close : NetClose) (c : Code)
        → c.procedure ≡ procedure_with P S p body head close
        → length (lines_in (slice_get P.bodies p.at.procedure)) ≤ length (code_lines (flat_lines body))
        → keep_steps (code_of P S p body) ≡ true
        → map (λ (l : NetLine). l.aims) (net_program.body_of c)
        ≡ map (λ (l : SourceLine). l.aims) (body_of (bound.lines_in (slice_get P.bodies p.at.procedure))) }
{}

/// A law: and they are heads and closing lines of blocks that compute something where the lines of the source are.
pub fn same_tests()
    ensures { (P : Program) (S : Scope) (p : Placed) (body : Nodes) (head : Head) (close : NetClose) (c : Code)
        → c.procedure ≡ procedure_with P S p body head close
        → length (lines_in (slice_get P.bodies p.at.procedure)) ≤ length (code_lines (flat_lines body))
        → keep_tests (code_of P S p body) ≡ true
        → map (λ (l : NetLine). l.tests) (net_program.body_of c)
        ≡ map (λ (l : SourceLine). l.tests) (body_of (bound.lines_in (slice_get P.bodies p.at.procedure))) }
{}

/// A law: what is written for a jump finds its label at the line of the number at which the jump finds it, if that line isn't replaced.
pub fn same_labels()
    ensures { (P : Program) (S : Scope) (p : Placed) (body : Nodes) (head : Head) (close : NetClose) (c : Code) (l : Label6)
        → c.procedure ≡ procedure_with P S p body head close
        → AreBound P p body
        → list_all is_unsigned_in (labels (flat_lines body)) ≡ true
        → is_unsigned (label_of l) ≡ true
        → keeps_label (label_of l) (code_of P S p body) ≡ true
        → target_of c (jump (labels (flat_lines body)) l) ≡ label_at (labels (lines_in (slice_get P.bodies p.at.procedure))) (label_of l) }
{}
