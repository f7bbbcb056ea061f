//! What stands behind a full stop, fields of user types, and labels.
ghost use Rattle.std.specs.Prelude.{◌≡◌, find, map, position, slice_get, IfOk};
ghost use Rattle.up_base.specs.Names.{lower_case};
ghost use Rattle.vb_tree.specs.View.{form_of, line_of};
ghost use Rattle.bound_tree.specs.Labels.{is_label, is_same_label, label_in, label_of};
ghost use Rattle.bound_tree.specs.View.{constant_of, variable_of};
ghost use Rattle.name_tables.specs.Scopes.{first_of, found_field, found_in_enum, found_in_file, found_in_module, found_label, found_member, if_fits, in_module_fits, some_constant_has_key, some_variable_has_key, use_in};
ghost use Rattle.name_tables.specs.Tables.{AreTables};
ghost use Rattle.name_tables.specs.Used.{label_shown, uses_in};
ghost use Rattle.name_tables.specs.View.{shown_declarations};

use crate::modules::class_file;
use crate::named::{has_key, if_fits, member_named};
use crate::{DeclaredRef, Kinds, NameTables, Site, Use6, Wanted};
use bound_tree::{ConstDecl, ConstId, EnumDecl, Named, TypeDecl, VarDecl};
use up_base::{Mem, Name};
use vb_tree::{ClassId, CodeLine, Form6, Label6, VarId};

fn found_in_file(
    tables: &NameTables,
    d: &DeclaredRef,
    site: Site,
    key: &[u8],
    file: Option<u32>,
) -> Option<Named>
    requires { AreTables tables.now (shown_declarations d.now) }
    ensures { result ≡ found_in_file (shown_declarations d.now) site key.now file }
{
    match file {
        Some(file) => if_fits(
            d,
            Kinds::Members,
            member_named(tables, d, site.file, file, key),
        ),
        None => None,
    }
}

/// What a name behind an object of a class stands for. Private members are seen in the class alone.
pub fn found_member(
    tables: &NameTables,
    d: &DeclaredRef,
    site: Site,
    class: ClassId,
    name: &Name,
) -> Option<Named>
    requires { AreTables tables.now (shown_declarations d.now) }
    ensures { result ≡ found_member (shown_declarations d.now) site class (lower_case name.now) }
{
    found_in_file(
        tables,
        d,
        site,
        name.lower_bytes(),
        class_file(tables, d, class),
    )
}

// What a name of a module stands for, which is declared as this: before another full stop, or as a value or callee.
fn in_module_fits(d: &DeclaredRef, wanted: Wanted, named: Option<Named>) -> Option<Named>
    ensures { result ≡ in_module_fits (shown_declarations d.now) wanted named }
{
    match wanted {
        Wanted::Qualifier => value_or_enum(d, named),
        Wanted::Value => if_fits(d, Kinds::Values, named),
        Wanted::Indexed => if_fits(d, Kinds::Values, named),
        Wanted::Callee => if_fits(d, Kinds::Callees, named),
    }
}

fn value_or_enum(d: &DeclaredRef, named: Option<Named>) -> Option<Named>
    ensures { result ≡ first_of (if_fits (shown_declarations d.now) Kinds.Values named) (if_fits (shown_declarations d.now) Kinds.Enums named) }
{
    if let Some(value) = if_fits(d, Kinds::Values, named) {
        return Some(value);
    }
    if_fits(d, Kinds::Enums, named)
}

// What a declaration of the module of a file number is, seen from the module of the file `from`.
fn use_in(from: u32, file: u32, named: Named) -> Use6
    ensures { result ≡ use_in from file named }
{
    if from == file {
        Use6::Own(named)
    } else {
        Use6::Foreign(file, named)
    }
}

/// The same of an optional one.
pub(crate) fn uses_in(from: u32, file: u32, named: Option<Named>) -> Option<Use6>
    ensures { result ≡ uses_in from file named }
{
    match named {
        Some(named) => Some(use_in(from, file, named)),
        None => None,
    }
}

fn found_key_in(
    tables: &NameTables,
    d: &DeclaredRef,
    site: Site,
    wanted: Wanted,
    file: u32,
    key: &[u8],
) -> Use6
    requires { AreTables tables.now (shown_declarations d.now) }
    ensures { result ≡ found_in_module (shown_declarations d.now) site wanted file key.now }
{
    let named = member_named(tables, d, site.file, file, key);
    match uses_in(site.file, file, in_module_fits(d, wanted, named)) {
        Some(found) => found,
        None => Use6::Undeclared,
    }
}

/// What a name behind the standard module of a file number stands for.
pub fn found_in_module(
    tables: &NameTables,
    d: &DeclaredRef,
    site: Site,
    wanted: Wanted,
    file: u32,
    name: &Name,
) -> Use6
    requires { AreTables tables.now (shown_declarations d.now) }
    ensures { result ≡ found_in_module (shown_declarations d.now) site wanted file (lower_case name.now) }
{
    found_key_in(tables, d, site, wanted, file, name.lower_bytes())
}

fn constant_has_key(consts: &[ConstDecl], key: &[u8], c: ConstId) -> bool
    ensures { result ≡ some_constant_has_key key.now (slice_get (map constant_of consts.now) c.0) }
{
    match consts.get(c.0 as usize) {
        Some(c) => has_key(key, &c.name),
        None => false,
    }
}

fn found_among(consts: &[ConstDecl], members: &[ConstId], key: &[u8]) -> Option<ConstId>
    ensures { result ≡ find (λ c. some_constant_has_key key.now (slice_get (map constant_of consts.now) c.0)) members.now }
{
    for c in members {
        if constant_has_key(consts, key, *c) {
            return Some(*c);
        }
    }
    None
}

/// The member of an Enum with a name.
pub fn found_in_enum(d: &DeclaredRef, of: &EnumDecl, name: &Name) -> Option<ConstId>
    ensures { result ≡ found_in_enum (shown_declarations d.now) of.now (lower_case name.now) }
{
    found_among(d.consts, of.members.as_slice(), name.lower_bytes())
}

fn variable_has_key(vars: &[VarDecl], key: &[u8], v: VarId) -> bool
    ensures { result ≡ some_variable_has_key key.now (slice_get (map variable_of vars.now) v.0) }
{
    match vars.get(v.0 as usize) {
        Some(v) => has_key(key, &v.name),
        None => false,
    }
}

fn field_place(vars: &[VarDecl], fields: &[VarId], key: &[u8]) -> Option<usize>
    ensures { result ≡ position (λ v. some_variable_has_key key.now (slice_get (map variable_of vars.now) v.0)) fields.now }
{
    fields.iter().position(|v| variable_has_key(vars, key, *v))
}

// A place as a short number, or want of memory.
fn short(place: Option<usize>) -> Result<Option<u32>, Mem>
    ensures { IfOk result (λ k. k ≡ place) }
{
    match place {
        Some(i) => {
            if i > 4294967295 {
                return Err(Mem);
            }
            Ok(Some(i as u32))
        }
        None => Ok(None),
    }
}

/// The place of the field with a name among those of a user type. No more than 4,294,967,296 fields are counted.
pub fn found_field(d: &DeclaredRef, ty: &TypeDecl, name: &Name) -> Result<Option<u32>, Mem>
    ensures { IfOk result (λ k. k ≡ found_field (shown_declarations d.now) ty.now (lower_case name.now)) }
{
    Ok(short(field_place(d.vars, ty.fields.as_slice(), name.lower_bytes()))?)
}

fn label_in(form: &Form6) -> Option<&Label6>
    ensures { label_shown result ≡ label_in (form_of form.now) }
{
    match form {
        Form6::Label(label) => Some(label),
        _ => None,
    }
}

fn is_same_label(a: &Label6, b: &Label6) -> bool
    ensures { result ≡ is_same_label (label_of a.now) (label_of b.now) }
{
    match (a, b) {
        (Label6::Word(a), Label6::Word(b)) => *a == *b,
        (Label6::Number(a), Label6::Number(b)) => *a == *b,
        _ => false,
    }
}

fn is_label(label: &Label6, other: Option<&Label6>) -> bool
    ensures { result ≡ is_label (label_of label.now) (label_shown other.entry) }
{
    match other {
        Some(other) => is_same_label(label, other),
        None => false,
    }
}

/// The first line with a label, of code lines that are numbered from 1.
pub fn found_label(lines: &[&CodeLine], label: &Label6) -> Option<usize>
    ensures { result ≡ found_label (map (λ l. line_of l.now) lines.now) label.now }
{
    for (i, line) in lines.iter().enumerate() {
        let line = *line;
        if is_label(label, label_in(&line.form)) {
            return Some(i + 1);
        }
    }
    None
}
