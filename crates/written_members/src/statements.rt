//! What each statement declares. Statements are the lines of a module, numbered from 0.
ghost use Rattle.std.specs.Prelude.{◌≡◌, ◌∷◌, [], ◌++◌, ◌&&◌, ℕ, false, cond, map, nat_eq, IfOk, OnOk};
ghost use Rattle.bound_tree.specs.View.{constant_of, declarations_of, variable_of};
ghost use Rattle.written_trees.specs.Prologues.{constants_from, constants_of, variables_from, variables_of};
ghost use Rattle.written_members.specs.Noted.{noted};
ghost use Rattle.written_members.specs.Statements.{IsNoted, declared_in};
ghost use Rattle.written_members.specs.Shown.{constant_shown, variable_shown};

use crate::numbers::index;
use bound_tree::{ConstDecl, Declared, VarDecl};
use std::alloc::Global;
use std::collections::HashMap;
use up_base::Mem;

/// A variable with its number.
#[derive(Clone, Copy)]
pub struct VarRef<'a> {
    pub number: u32,
    pub decl: &'a VarDecl,
}

/// A constant with its number.
#[derive(Clone, Copy)]
pub struct ConstRef<'a> {
    pub number: u32,
    pub decl: &'a ConstDecl,
}

/// What each statement of a project declares, which is looked up and not searched for. That it is so is asked of one by
/// `IsNoted`, which `Statements::of` ensures.
#[derive(Drop)]
pub struct Statements<'a> {
    declared: &'a Declared,
    // by the file of a statement and its number in it
    vars: HashMap<(u32, u32), Vec<VarRef<'a>>>,
    consts: HashMap<(u32, u32), Vec<ConstRef<'a>>>,
}

impl<'a> Statements<'a> {
    /// The statements of a project.
    pub fn of(alloc: Global, declared: &'a Declared) -> Result<Statements<'a>, Mem>
        ensures declared { IfOk result (λ s. declared_in s ≡ declarations_of declared.now) }
        ensures noted { IfOk result IsNoted }
    {
        let vars = noted_variables(alloc, declared.vars.as_slice())?;
        let consts = noted_constants(alloc, declared.consts.as_slice())?;
        Ok(Statements {
            declared,
            vars,
            consts,
        })
    }

    /// What the project declares.
    pub fn declared(&self) -> &'a Declared
        ensures { declarations_of result.now ≡ declared_in self.now }
    {
        self.declared
    }

    /// The variables that a statement declares, in project order. Those that no line declares belong to the line of their first use.
    pub fn variables(&self, file: u32, number: u32) -> &[VarRef<'a>]
        requires { IsNoted self.now }
        ensures { map variable_shown result.now ≡ variables_of (declared_in self.now) file number }
    {
        list_of(&self.vars, file, number)
    }

    /// The constants that a statement declares, in project order.
    pub fn constants(&self, file: u32, number: u32) -> &[ConstRef<'a>]
        requires { IsNoted self.now }
        ensures { map constant_shown result.now ≡ constants_of (declared_in self.now) file number }
    {
        list_of(&self.consts, file, number)
    }
}

// The list for a statement, which is empty where there is none.
fn list_of<T>(table: &HashMap<(u32, u32), Vec<T>>, file: u32, number: u32) -> &[T]
    ensures { result.now ≡ noted table.now file number }
{
    match table.get(&(file, number)) {
        Some(list) => list.as_slice(),
        None => &[],
    }
}

// Puts an item behind those of its statement.
fn note<T: Drop>(
    alloc: Global,
    file: u32,
    number: u32,
    item: T,
    to: &mut HashMap<(u32, u32), Vec<T>>,
) -> Result<(), Mem>
    ensures { OnOk result ((f n : ℕ) → noted to.new f n ≡ noted to.old f n ++ cond (nat_eq file f && nat_eq number n) (item ∷ []) []) }
{
    let mut list = taken(alloc, file, number, to);
    list.push(item)?;
    to.insert((file, number), list)?;
    Ok(())
}

// Takes the list for a statement out.
fn taken<T>(alloc: Global, file: u32, number: u32, from: &mut HashMap<(u32, u32), Vec<T>>) -> Vec<T>
    ensures list { result.items ≡ noted from.old file number }
    ensures others { (f n : ℕ) → (nat_eq file f && nat_eq number n) ≡ false → noted from.new f n ≡ noted from.old f n }
{
    match from.remove(&(file, number)) {
        Some(list) => list,
        None => Vec::new(alloc),
    }
}

fn noted_variables<'a>(
    alloc: Global,
    vars: &'a [VarDecl],
) -> Result<HashMap<(u32, u32), Vec<VarRef<'a>>>, Mem>
    ensures { IfOk result (λ m. (file n : ℕ) → map variable_shown (noted m file n) ≡ variables_from file n 0 (map variable_of vars.now)) }
{
    let mut all = HashMap::new(alloc);
    for (i, decl) in vars.iter().enumerate() {
        note_variable(alloc, i, decl, &mut all)?;
    }
    Ok(all)
}

fn note_variable<'a>(
    alloc: Global,
    i: usize,
    decl: &'a VarDecl,
    to: &mut HashMap<(u32, u32), Vec<VarRef<'a>>>,
) -> Result<(), Mem>
    ensures { OnOk result ((file n : ℕ) → map variable_shown (noted to.new file n) ≡ map variable_shown (noted to.old file n) ++ variables_from file n i (variable_of decl.now ∷ [])) }
{
    let number = index(i)?;
    note(
        alloc,
        decl.place.file,
        decl.statement,
        VarRef { number, decl },
        to,
    )?;
    Ok(())
}

fn noted_constants<'a>(
    alloc: Global,
    consts: &'a [ConstDecl],
) -> Result<HashMap<(u32, u32), Vec<ConstRef<'a>>>, Mem>
    ensures { IfOk result (λ m. (file n : ℕ) → map constant_shown (noted m file n) ≡ constants_from file n 0 (map constant_of consts.now)) }
{
    let mut all = HashMap::new(alloc);
    for (i, decl) in consts.iter().enumerate() {
        note_constant(alloc, i, decl, &mut all)?;
    }
    Ok(all)
}

fn note_constant<'a>(
    alloc: Global,
    i: usize,
    decl: &'a ConstDecl,
    to: &mut HashMap<(u32, u32), Vec<ConstRef<'a>>>,
) -> Result<(), Mem>
    ensures { OnOk result ((file n : ℕ) → map constant_shown (noted to.new file n) ≡ map constant_shown (noted to.old file n) ++ constants_from file n i (constant_of decl.now ∷ [])) }
{
    let number = index(i)?;
    note(
        alloc,
        decl.place.file,
        decl.statement,
        ConstRef { number, decl },
        to,
    )?;
    Ok(())
}
