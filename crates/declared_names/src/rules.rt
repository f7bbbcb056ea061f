//! The rules that one declaration breaks by its name alone.
ghost use Rattle.std.specs.Prelude.{◌≡◌, ◌||◌, map, nat_eq, option_map, None};
ghost use Rattle.std.specs.Cmp.Lexicographic.{pointwise};
ghost use Rattle.up_base.specs.Names.{lower_case};
ghost use Rattle.vb_tree.specs.View.{module_of};
ghost use Rattle.declared_names.specs.Rivals.{AreRivals, placed_field_rules};
ghost use Rattle.declared_names.specs.Rules.{answered, constant_rules, enum_rules, head_rules, is_given_initializer, is_module_name, is_reserved, is_sub, local_rules, member_rules, name_rules, own_rules, part_of, procedure_rules, rules_at, rules_of_head, type_rules, variable_rules, with_answer, with_params};
ghost use Rattle.declared_names.specs.View.{constant_of, names_of, procedure_of, variable_of};

use crate::rivals::Rivals;
use crate::taken::{is_class, is_class_name, is_inherited, is_module_name, is_reserved};
use crate::twice::{is_second_field, is_second_local, is_second_member};
use crate::{DeclaredNames, NamedConst, NamedProc, NamedVar};
use bound_tree::{ConstId, EnumDecl, EnumId, Named, RuleSet, TypeDecl};
use name_places::NamePlaces;
use up_base::Name;
use vb_tree::{Module6, Owner, ProcId, ProcKind, TypeId, VarId};

/// Whether a name is a word, given in small letters.
pub(crate) fn is_word(name: &Name, word: &[u8]) -> bool
    ensures { result ≡ pointwise nat_eq (lower_case name.now) word.now }
{
    name.lower_bytes() == word
}

// Whether a declared name breaks U20, which may be a second one in its scope.
fn is_taken(modules: &[Module6], second: bool, name: &Name) -> bool
    ensures { result ≡ (second || is_reserved name.now || is_module_name (map module_of modules.now) name.now) }
{
    second || is_reserved(name) || is_module_name(modules, name)
}

// The rules that a member of the module of a file breaks by its name.
fn member_rules(
    modules: &[Module6],
    d: &DeclaredNames,
    rivals: &Rivals,
    file: u32,
    name: &Name,
    named: Named,
) -> RuleSet
    requires { AreRivals rivals.now (names_of d.now) }
    ensures { result ≡ member_rules (map module_of modules.now) (names_of d.now) file name.now named }
{
    let second = is_second_member(rivals, d, file, name, named);
    let taken = is_taken(modules, second, name);
    RuleSet::new()
        .with_if(20, taken)
        .with_if(16, is_inherited(name))
}

// The rules that a name of a procedure's own breaks.
fn local_rules(
    modules: &[Module6],
    d: &DeclaredNames,
    rivals: &Rivals,
    procedure: ProcId,
    name: &Name,
    named: Named,
) -> RuleSet
    requires tables { AreRivals rivals.now (names_of d.now) }
    requires part { part_of (names_of d.now).procs named ≡ None }
    ensures { result ≡ local_rules (map module_of modules.now) (names_of d.now) procedure.0 name.now named }
{
    let second = is_second_local(rivals, d, procedure, name, named);
    let taken = is_taken(modules, second, name);
    RuleSet::new().with_if(20, taken)
}

// The rules that the name of a field breaks, which is the variable of a number.
fn field_rules(fields: &NamePlaces, of: TypeId, name: &Name, own: usize) -> RuleSet
    ensures { result ≡ placed_field_rules fields.now of.0 name.now own }
{
    let taken = is_second_field(fields, of.0, name, own) || is_reserved(name);
    RuleSet::new()
        .with_if(20, taken)
        .with_if(16, is_inherited(name))
}

// The rules that the name of a variable breaks by itself.
fn name_rules(
    modules: &[Module6],
    d: &DeclaredNames,
    rivals: &Rivals,
    own: u32,
    name: &Name,
    owner: Owner,
) -> RuleSet
    requires { AreRivals rivals.now (names_of d.now) }
    ensures { result ≡ name_rules (map module_of modules.now) (names_of d.now) own name.now owner }
{
    let named = Named::Var(VarId(own));
    match owner {
        Owner::Module(file) => member_rules(modules, d, rivals, file, name, named),
        Owner::Field(ty) => field_rules(&rivals.fields, ty, name, own as usize),
        Owner::Local(p) => local_rules(modules, d, rivals, p, name, named),
        Owner::Static(p) => local_rules(modules, d, rivals, p, name, named),
        Owner::Value(p) => local_rules(modules, d, rivals, p, name, named),
        Owner::Reference(p) => local_rules(modules, d, rivals, p, name, named),
        Owner::Answer(p) => local_rules(modules, d, rivals, p, name, named),
    }
}

// The rules that a variable breaks by itself.
fn own_rules(
    modules: &[Module6],
    d: &DeclaredNames,
    rivals: &Rivals,
    own: u32,
    variable: &NamedVar,
) -> RuleSet
    requires { AreRivals rivals.now (names_of d.now) }
    ensures { result ≡ own_rules (map module_of modules.now) (names_of d.now) own (variable_of variable.now) }
{
    let rules = name_rules(modules, d, rivals, own, variable.name, variable.owner);
    rules.with_if(18, variable.param_array)
}

fn rules_at(
    modules: &[Module6],
    d: &DeclaredNames,
    rivals: &Rivals,
    own: u32,
    variable: Option<&NamedVar>,
) -> RuleSet
    requires { AreRivals rivals.now (names_of d.now) }
    ensures { result ≡ rules_at (map module_of modules.now) (names_of d.now) own (option_map (λ v. variable_of v.now) variable.entry) }
{
    match variable {
        Some(variable) => own_rules(modules, d, rivals, own, variable),
        None => RuleSet::new(),
    }
}

#[tactic(auto, using(crate::proofs::Rows::variable_at))]
fn rules_of(modules: &[Module6], d: &DeclaredNames, rivals: &Rivals, own: VarId) -> RuleSet
    requires { AreRivals rivals.now (names_of d.now) }
    ensures { result ≡ rules_at (map module_of modules.now) (names_of d.now) own.0 (Rattle.std.specs.Prelude.slice_get (names_of d.now).vars own.0) }
{
    rules_at(modules, d, rivals, own.0, d.vars.get(own.0 as usize))
}

// Rules with those that parameters break.
fn with_params(
    modules: &[Module6],
    d: &DeclaredNames,
    rivals: &Rivals,
    rules: RuleSet,
    params: &[VarId],
) -> RuleSet
    requires { AreRivals rivals.now (names_of d.now) }
    ensures { result ≡ with_params (map module_of modules.now) (names_of d.now) rules params.now }
{
    let mut all = rules;
    for param in params {
        all = all.union(rules_of(modules, d, rivals, *param));
    }
    all
}

// Rules with those that a result variable breaks by itself.
fn with_answer(
    modules: &[Module6],
    d: &DeclaredNames,
    rivals: &Rivals,
    rules: RuleSet,
    answer: Option<VarId>,
) -> RuleSet
    requires { AreRivals rivals.now (names_of d.now) }
    ensures { result ≡ with_answer (map module_of modules.now) (names_of d.now) rules answer }
{
    match answer {
        Some(answer) => rules.union(rules_of(modules, d, rivals, answer)),
        None => rules,
    }
}

pub(crate) fn is_sub(kind: ProcKind) -> bool
    ensures { result ≡ is_sub kind }
{
    matches!(kind, ProcKind::Sub)
}

// Whether it is the initializer of a class and has parameters.
fn is_given_initializer(modules: &[Module6], procedure: &NamedProc) -> bool
    ensures { result ≡ is_given_initializer (map module_of modules.now) (procedure_of procedure.now) }
{
    is_class(modules, procedure.module)
        && is_sub(procedure.kind)
        && is_word(procedure.name, b"class_initialize")
        && !procedure.params.is_empty()
}

// The rules that the name of a procedure breaks and its head as a whole.
fn procedure_rules(
    modules: &[Module6],
    d: &DeclaredNames,
    rivals: &Rivals,
    own: u32,
    procedure: &NamedProc,
) -> RuleSet
    requires { AreRivals rivals.now (names_of d.now) }
    ensures { result ≡ procedure_rules (map module_of modules.now) (names_of d.now) own (procedure_of procedure.now) }
{
    let named = Named::Proc(ProcId(own));
    member_rules(modules, d, rivals, procedure.module, procedure.name, named)
        .with_if(4, procedure.is_static)
        .with_if(18, is_given_initializer(modules, procedure))
}

/// The rules that the head of a procedure breaks, with those of its parameters and its result variable.
pub(crate) fn head_rules(
    modules: &[Module6],
    d: &DeclaredNames,
    rivals: &Rivals,
    own: u32,
    procedure: &NamedProc,
) -> RuleSet
    requires { AreRivals rivals.now (names_of d.now) }
    ensures { result ≡ head_rules (map module_of modules.now) (names_of d.now) own (procedure_of procedure.now) }
{
    let rules = procedure_rules(modules, d, rivals, own, procedure);
    let rules = with_params(modules, d, rivals, rules, procedure.params.as_slice());
    with_answer(modules, d, rivals, rules, procedure.answer)
}

fn rules_of_head(
    modules: &[Module6],
    d: &DeclaredNames,
    rivals: &Rivals,
    own: u32,
    procedure: Option<&NamedProc>,
) -> RuleSet
    requires { AreRivals rivals.now (names_of d.now) }
    ensures { result ≡ rules_of_head (map module_of modules.now) (names_of d.now) own (option_map (λ p. procedure_of p.now) procedure.entry) }
{
    match procedure {
        Some(procedure) => head_rules(modules, d, rivals, own, procedure),
        None => RuleSet::new(),
    }
}

// The procedure of which it is the result variable.
fn answered(owner: Owner) -> Option<u32>
    ensures { result ≡ answered owner }
{
    match owner {
        Owner::Answer(p) => Some(p.0),
        _ => None,
    }
}

/// The rules that a variable breaks. A result variable has those of the head of its procedure.
#[tactic(auto, using(crate::proofs::Rows::procedure_at))]
pub(crate) fn variable_rules(
    modules: &[Module6],
    d: &DeclaredNames,
    rivals: &Rivals,
    own: u32,
    variable: &NamedVar,
) -> RuleSet
    requires { AreRivals rivals.now (names_of d.now) }
    ensures { result ≡ variable_rules (map module_of modules.now) (names_of d.now) own (variable_of variable.now) }
{
    match answered(variable.owner) {
        Some(p) => rules_of_head(modules, d, rivals, p, d.procs.get(p as usize)),
        None => own_rules(modules, d, rivals, own, variable),
    }
}

/// The rules that a constant or a member of an Enum breaks.
pub(crate) fn constant_rules(
    modules: &[Module6],
    d: &DeclaredNames,
    rivals: &Rivals,
    own: u32,
    constant: &NamedConst,
) -> RuleSet
    requires { AreRivals rivals.now (names_of d.now) }
    ensures { result ≡ constant_rules (map module_of modules.now) (names_of d.now) own (constant_of constant.now) }
{
    let named = Named::Const(ConstId(own));
    match constant.owner {
        Owner::Module(file) => member_rules(modules, d, rivals, file, constant.name, named),
        Owner::Local(p) => local_rules(modules, d, rivals, p, constant.name, named),
        _ => RuleSet::new(),
    }
}

/// The rules that the head of a Type breaks, which can't have the name of a class either.
pub(crate) fn type_rules(
    modules: &[Module6],
    d: &DeclaredNames,
    rivals: &Rivals,
    own: u32,
    ty: &TypeDecl,
) -> RuleSet
    requires { AreRivals rivals.now (names_of d.now) }
    ensures { result ≡ type_rules (map module_of modules.now) (names_of d.now) own ty.now }
{
    let named = Named::Type(TypeId(own));
    let is_class = is_class_name(modules, &ty.name);
    member_rules(modules, d, rivals, ty.module, &ty.name, named).with_if(20, is_class)
}

/// The rules that the head of an Enum breaks, which no class can have.
pub(crate) fn enum_rules(
    modules: &[Module6],
    d: &DeclaredNames,
    rivals: &Rivals,
    own: u32,
    group: &EnumDecl,
) -> RuleSet
    requires { AreRivals rivals.now (names_of d.now) }
    ensures { result ≡ enum_rules (map module_of modules.now) (names_of d.now) own group.now }
{
    let named = Named::Enum(EnumId(own));
    member_rules(modules, d, rivals, group.module, &group.name, named).with_if(
        4,
        is_class(modules, group.module),
    )
}
