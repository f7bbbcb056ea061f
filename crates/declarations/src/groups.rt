//! The suffixes in the heads of Types and Enums.
ghost use Rattle.std.specs.Prelude.{◌≡◌, ◌++◌, map, option_map, IfOk, OnOk};
ghost use Rattle.vb_tree.specs.View.{form_of, member_of, module_of, project_of};
ghost use Rattle.declarations.specs.Finals as finals;
ghost use Rattle.declarations.specs.Finals.{enum_suffix, enum_suffix_in, suffixes_in, suffixes_of, type_suffix, type_suffix_in};

use std::alloc::Global;
use up_base::Mem;
use vb_tree::{Form6, Member6, Module6, Suffix};

fn type_suffix_in(form: &Form6) -> Option<Suffix>
    ensures { result ≡ type_suffix_in (form_of form.now) }
{
    match form {
        Form6::TypeHead(_, _, suffix) => Some(*suffix),
        _ => None,
    }
}

fn enum_suffix_in(form: &Form6) -> Option<Suffix>
    ensures { result ≡ enum_suffix_in (form_of form.now) }
{
    match form {
        Form6::EnumHead(_, _, suffix) => Some(*suffix),
        _ => None,
    }
}

fn type_suffix(member: &Member6) -> Option<Suffix>
    ensures { result ≡ type_suffix (member_of member.now) }
{
    match member {
        Member6::Group(head, _, _) => type_suffix_in(&head.form),
        _ => None,
    }
}

fn enum_suffix(member: &Member6) -> Option<Suffix>
    ensures { result ≡ enum_suffix (member_of member.now) }
{
    match member {
        Member6::Group(head, _, _) => enum_suffix_in(&head.form),
        _ => None,
    }
}

fn put_suffix(suffix: Option<Suffix>, to: &mut Vec<Suffix>) -> Result<(), Mem>
    ensures { OnOk result (to.new.items ≡ to.old.items ++ finals.suffix_list suffix) }
{
    match suffix {
        Some(suffix) => Ok(to.push(suffix)?),
        None => Ok(()),
    }
}

fn put_type_suffixes(members: &[Member6], to: &mut Vec<Suffix>) -> Result<(), Mem>
    ensures { OnOk result (to.new.items ≡ to.old.items ++ suffixes_in type_suffix (map member_of members.now)) }
{
    for member in members {
        put_suffix(type_suffix(member), to)?;
    }
    Ok(())
}

/// Those of Types.
pub(crate) fn type_suffixes(alloc: Global, modules: &[Module6]) -> Result<Vec<Suffix>, Mem>
    ensures { IfOk result (λ v. v.items ≡ suffixes_of type_suffix (map module_of modules.now)) }
{
    let mut all = Vec::new(alloc);
    for module in modules {
        put_type_suffixes(module.members.as_slice(), &mut all)?;
    }
    Ok(all)
}

fn put_enum_suffixes(members: &[Member6], to: &mut Vec<Suffix>) -> Result<(), Mem>
    ensures { OnOk result (to.new.items ≡ to.old.items ++ suffixes_in enum_suffix (map member_of members.now)) }
{
    for member in members {
        put_suffix(enum_suffix(member), to)?;
    }
    Ok(())
}

/// Those of Enums.
pub(crate) fn enum_suffixes(alloc: Global, modules: &[Module6]) -> Result<Vec<Suffix>, Mem>
    ensures { IfOk result (λ v. v.items ≡ suffixes_of enum_suffix (map module_of modules.now)) }
{
    let mut all = Vec::new(alloc);
    for module in modules {
        put_enum_suffixes(module.members.as_slice(), &mut all)?;
    }
    Ok(all)
}
