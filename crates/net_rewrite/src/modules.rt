//! What is written for modules.
ghost use Rattle.std.specs.Prelude.{◌≡◌, ◌++◌, ◌∷◌, [], codes, map, IfOk, OnOk};
ghost use Rattle.bound_tree.specs.View.{declarations_of};
ghost use Rattle.net_tree.specs.Tree as net;
ghost use Rattle.net_tree.specs.View.{line_of, member_of, module_of, procedure_of};
ghost use Rattle.vb_tree.specs.View as source;
ghost use Rattle.written_trees.specs.Names as names;
ghost use Rattle.written_trees.specs.Placing as placing;
ghost use Rattle.written_trees.specs.Projects as rows;
ghost use Rattle.written_rows.specs.View.{facts_of};
ghost use Rattle.written_members.specs.Statements.{IsNoted, declared_in};
ghost use Rattle.written_members.specs.View.{numbers_of};
ghost use Rattle.net_rewrite.specs.Modules.{program_with};

use crate::members::push_members;
use crate::starts::{Special, has_sub};
use bound_tree::{Declared, LineRef};
use net_tree::{NetClose, NetExpr, NetHead, NetLine, NetMember, NetModule, NetProc};
use std::alloc::Global;
use up_base::{Mem, Sequence};
use vb_tree::Module6;
use written_members::{Numbers, Site, Statements, behind_members};
use written_rows::{WrittenFacts, alone};

// Whether a module is a class with Class_Initialize.
fn has_initializer(declared: &Declared, m: &Module6) -> bool
    ensures { result ≡ rows.has_initializer (declarations_of declared.now) m.now.file (source.module_of m.now) }
{
    m.class && has_sub(declared, m.file, Special::Initializer)
}

fn initializing_line(alloc: Global) -> Result<NetLine, Mem>
    ensures { IfOk result (λ l. line_of l ≡ net.call (net.path (names.alone (codes "Class_Initialize"))) net.no_exps) }
{
    let path = alone(alloc, b"Class_Initialize")?;
    Ok(NetLine::Call(Box::new(alloc, NetExpr::Path(path))?, Sequence::new(alloc)))
}

// What makes an object calls Class_Initialize.
fn maker(alloc: Global) -> Result<NetProc, Mem>
    ensures { IfOk result (λ p. procedure_of p ≡ rows.maker) }
{
    let mut lines = Vec::with_capacity(alloc, 1)?;
    lines.push(initializing_line(alloc)?)?;
    Ok(NetProc {
        head: NetHead::New,
        prologue: Vec::new(alloc),
        lines,
        close: NetClose::EndSub,
    })
}

fn push_maker(alloc: Global, has: bool, to: &mut Vec<NetMember>) -> Result<(), Mem>
    ensures { OnOk result (map member_of to.new.items ≡ map member_of to.old.items ++ rows.makers has) }
{
    if !has {
        return Ok(());
    }
    let procedure = maker(alloc)?;
    Ok(to.push(NetMember::Proc(Box::new(alloc, procedure)?))?)
}

fn members(
    alloc: Global,
    statements: &Statements,
    facts: &WrittenFacts,
    bodies: &[Vec<LineRef>],
    at: Numbers,
    m: &Module6,
) -> Result<Vec<NetMember>, Mem>
    requires { IsNoted statements.now }
    ensures { IfOk result (λ all. map member_of all.items ≡ (rows.written_module (program_with (declared_in statements.now) bodies.now) (facts_of facts.now) (numbers_of at) (source.module_of m.now)).members) }
{
    let site = Site {
        statements,
        facts,
        file: m.file,
        procedure: None,
    };
    let mut all = Vec::new(alloc);
    push_maker(alloc, has_initializer(statements.declared(), m), &mut all)?;
    push_members(
        alloc,
        &site,
        bodies,
        at,
        m.comments.as_slice(),
        m.members.as_slice(),
        &mut all,
    )?;
    Ok(all)
}

fn written_module(
    alloc: Global,
    statements: &Statements,
    facts: &WrittenFacts,
    bodies: &[Vec<LineRef>],
    at: Numbers,
    m: &Module6,
) -> Result<NetModule, Mem>
    requires { IsNoted statements.now }
    ensures { IfOk result (λ n. module_of n ≡ rows.written_module (program_with (declared_in statements.now) bodies.now) (facts_of facts.now) (numbers_of at) (source.module_of m.now)) }
{
    let name = m.name.copy(alloc)?;
    let members = members(alloc, statements, facts, bodies, at, m)?;
    Ok(NetModule {
        name,
        class: m.class,
        members: Sequence::from_vec(members),
    })
}

// Statements are numbered anew in each module.
fn next_module(alloc: Global, at: Numbers, m: &Module6) -> Result<Numbers, Mem>
    ensures { IfOk result (λ next. numbers_of next ≡ rows.next_module (placing.behind_members (numbers_of at) (source.module_of m.now).members)) }
{
    let behind = behind_members(alloc, at, m.members.as_slice())?;
    Ok(Numbers {
        statement: 0,
        procedure: behind.procedure,
        user_type: behind.user_type,
        enumeration: behind.enumeration,
    })
}

fn push_module(
    alloc: Global,
    statements: &Statements,
    facts: &WrittenFacts,
    bodies: &[Vec<LineRef>],
    at: Numbers,
    m: &Module6,
    to: &mut Vec<NetModule>,
) -> Result<(), Mem>
    requires { IsNoted statements.now }
    ensures { OnOk result (map module_of to.new.items ≡ map module_of to.old.items ++ rows.written_module (program_with (declared_in statements.now) bodies.now) (facts_of facts.now) (numbers_of at) (source.module_of m.now) ∷ []) }
{
    let written = written_module(alloc, statements, facts, bodies, at, m)?;
    Ok(to.push(written)?)
}

/// What is written for all modules. `bodies` has the code lines of each procedure of the project.
pub(crate) fn written_modules(
    alloc: Global,
    statements: &Statements,
    facts: &WrittenFacts,
    bodies: &[Vec<LineRef>],
    modules: &[Module6],
) -> Result<Vec<NetModule>, Mem>
    requires { IsNoted statements.now }
    ensures { IfOk result (λ all. map module_of all.items ≡ rows.modules_from (program_with (declared_in statements.now) bodies.now) (facts_of facts.now) rows.first_numbers (map source.module_of modules.now)) }
{
    let mut all = Vec::with_capacity(alloc, modules.len())?;
    let mut at = Numbers {
        statement: 0,
        procedure: 0,
        user_type: 0,
        enumeration: 0,
    };
    for m in modules {
        push_module(alloc, statements, facts, bodies, at, m, &mut all)?;
        at = next_module(alloc, at, m)?;
    }
    Ok(all)
}
