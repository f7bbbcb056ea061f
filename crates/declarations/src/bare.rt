//! The declarations of a project before their types and values are known.
ghost use Rattle.std.specs.Prelude.{◌≡◌, map, slice_get, IfOk};
ghost use Rattle.vb_tree.specs.View.{project_of};
ghost use Rattle.bound_tree.specs.View.{constant_of, procedure_of, variable_of};
ghost use Rattle.name_tables.specs.View.{shown_declarations};
ghost use Rattle.declared_names.specs.View.{constant_of as named_constant, names_of, procedure_of as named_procedure, variable_of as named_variable};
ghost use Rattle.declarations.specs.Bare.{bare, bare_constant, bare_of, bare_procedure, bare_procedures, bare_variable};
ghost use Rattle.declarations.specs.View.{filled_in};

use crate::defaults::defaults_of;
use bound_tree::{ConstDecl, ProcDecl, VarDecl};
use declared_names::{DeclaredNames, NamedConst, NamedProc, NamedVar, first_parts};
use name_tables::DeclaredRef;
use std::alloc::Global;
use up_base::{Mem, Sequence};
use vb_tree::{ProcId, Project6, Type6};

/// The lists of declarations in which types and values are filled in.
#[derive(Drop)]
pub(crate) struct Filled {
    pub vars: Vec<VarDecl>,
    pub consts: Vec<ConstDecl>,
    pub procs: Vec<ProcDecl>,
    pub defaults: Vec<Option<ProcId>>,
}

impl Filled {
    /// The declarations of a project with these lists.
    pub fn declared<'a>(
        &'a self,
        project: &'a Project6,
        names: &'a DeclaredNames<'_>,
    ) -> DeclaredRef<'a>
        ensures { shown_declarations result ≡ filled_in project.now names.now self.now }
    {
        DeclaredRef {
            project,
            names: names.names.as_slice(),
            vars: &self.vars,
            consts: &self.consts,
            procs: &self.procs,
            types: names.types.as_slice(),
            enums: names.enums.as_slice(),
            defaults: &self.defaults,
        }
    }
}

pub(crate) fn bare_variable(alloc: Global, x: &NamedVar<'_>) -> Result<VarDecl, Mem>
    ensures { IfOk result (λ v. variable_of v ≡ bare_variable (named_variable x.now)) }
{
    Ok(VarDecl {
        name: x.name.copy(alloc)?,
        place: x.place,
        statement: x.statement,
        owner: x.owner,
        ty: Type6::Unknown,
        named: Type6::Unknown,
        qualified: false,
        lettered: None,
        bounds: Sequence::new(alloc),
        auto: x.auto,
        preset: None,
    })
}

fn bare_variables(alloc: Global, all: &[NamedVar<'_>]) -> Result<Vec<VarDecl>, Mem>
    ensures { IfOk result (λ v. map variable_of v.items ≡ map bare_variable (map named_variable all.now)) }
{
    let mut vars = Vec::new(alloc);
    for x in all {
        let x = bare_variable(alloc, x)?;
        vars.push(x)?;
    }
    Ok(vars)
}

fn bare_constant(alloc: Global, c: &NamedConst<'_>) -> Result<ConstDecl, Mem>
    ensures { IfOk result (λ k. constant_of k ≡ bare_constant (named_constant c.now)) }
{
    Ok(ConstDecl {
        name: c.name.copy(alloc)?,
        place: c.place,
        statement: c.statement,
        owner: c.owner,
        ty: Type6::Unknown,
        value: None,
    })
}

fn bare_constants(alloc: Global, all: &[NamedConst<'_>]) -> Result<Vec<ConstDecl>, Mem>
    ensures { IfOk result (λ v. map constant_of v.items ≡ map bare_constant (map named_constant all.now)) }
{
    let mut consts = Vec::new(alloc);
    for c in all {
        let c = bare_constant(alloc, c)?;
        consts.push(c)?;
    }
    Ok(consts)
}

fn bare_procedure(alloc: Global, first: ProcId, p: &NamedProc<'_>) -> Result<ProcDecl, Mem>
    ensures { IfOk result (λ q. procedure_of q ≡ bare_procedure first (named_procedure p.now)) }
{
    Ok(ProcDecl {
        name: p.name.copy(alloc)?,
        place: p.place,
        module: p.module,
        kind: p.kind,
        visibility: p.visibility,
        params: Sequence::from_slice(alloc, p.params.as_slice())?,
        result: Type6::Unknown,
        answer: p.answer,
        first,
    })
}

fn bare_procedures(
    alloc: Global,
    firsts: &[ProcId],
    all: &[NamedProc<'_>],
) -> Result<Vec<ProcDecl>, Mem>
    ensures { IfOk result (λ v. map procedure_of v.items ≡ bare_procedures firsts.now (map named_procedure all.now)) }
{
    let mut procs = Vec::new(alloc);
    for (first, p) in firsts.iter().zip(all) {
        let p = bare_procedure(alloc, *first, p)?;
        procs.push(p)?;
    }
    Ok(procs)
}

fn procedures(alloc: Global, names: &DeclaredNames<'_>) -> Result<Vec<ProcDecl>, Mem>
    ensures { IfOk result (λ v. map procedure_of v.items ≡ bare_of (names_of names.now)) }
{
    let firsts = first_parts(alloc, names)?;
    Ok(bare_procedures(alloc, firsts.as_slice(), names.procs.as_slice())?)
}

/// The declarations of a project as far as names alone tell.
pub(crate) fn bare(
    alloc: Global,
    project: &Project6,
    names: &DeclaredNames<'_>,
) -> Result<Filled, Mem>
    ensures { IfOk result (λ f. filled_in project.now names.now f ≡ bare (project_of project.now) (names_of names.now)) }
{
    let procs = procedures(alloc, names)?;
    let defaults = defaults_of(alloc, project, &procs)?;
    let consts = bare_constants(alloc, names.consts.as_slice())?;
    let vars = bare_variables(alloc, names.vars.as_slice())?;
    Ok(Filled {
        vars,
        consts,
        procs,
        defaults,
    })
}
