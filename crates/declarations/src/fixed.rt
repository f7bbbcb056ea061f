//! What stays the same while types and values are filled in.
ghost use Rattle.std.specs.Prelude.{◌≡◌};
ghost use Rattle.expression_words.specs.View.{declared_in};
ghost use Rattle.declarations.specs.View.{filled_in, IsFixed, IsKnown};

use crate::bare::Filled;
use crate::module_facts::ModuleFacts;
use crate::places::Known;
use declared_names::DeclaredNames;
use expression_words::{Context, Kept, MemberTables};
use name_tables::NameTables;
use vb_tree::Project6;

/// A project with its declared names, the tables in which they are looked up, and what its modules say.
#[derive(Clone, Copy)]
pub(crate) struct Fixed<'a> {
    pub project: &'a Project6,
    pub names: &'a DeclaredNames<'a>,
    pub tables: &'a NameTables,
    pub member_tables: &'a MemberTables,
    pub facts: &'a [ModuleFacts<'a>],
    /// Nothing, since no With stands round a declaration.
    pub kept: &'a Kept,
    /// For each constant whether it is a member of an Enum.
    pub members: &'a [bool],
}

/// The declarations as far as they are filled in.
pub(crate) fn known_by<'a>(fixed: &Fixed<'a>, filled: &'a Filled) -> Known<'a>
    requires { IsFixed fixed.now filled.now }
    ensures known { IsKnown result }
    ensures shown { declared_in result.context ≡ filled_in fixed.now.project.now fixed.now.names.now filled.now }
{
    Known {
        context: Context {
            declared: filled.declared(fixed.project, fixed.names),
            tables: fixed.tables,
            members: fixed.member_tables,
        },
        facts: fixed.facts,
        kept: fixed.kept,
    }
}
