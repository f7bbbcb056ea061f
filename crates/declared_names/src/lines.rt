//! The rules that lines break which declare nothing, and the line of the project file that names Sub Main.
ghost use Rattle.std.specs.Prelude.{◌≡◌, ◌&&◌, length, filter, map, nat_eq, option_map};
ghost use Rattle.std.specs.List.{list_any};
ghost use Rattle.std.specs.Char.{to_ascii_lowercase};
ghost use Rattle.std.specs.Cmp.Lexicographic.{pointwise};
ghost use Rattle.up_base.specs.Names.{lower_case};
ghost use Rattle.vb_tree.specs.LogicalLines.{is_word as is_token_word};
ghost use Rattle.vb_tree.specs.View.{form_of, member_of, module_of, project_of};
ghost use Rattle.declared_names.specs.Rules.{gives_name, gives_other_name, has_main, is_equal_sign, is_floating, is_main, is_main_head, is_text, line_rules, main_rules, start_rules, startup_rules};
ghost use Rattle.declared_names.specs.View.{head_shown};

use crate::rules::{is_sub, is_word};
use crate::{HeadRef, head_of};
use bound_tree::RuleSet;
use up_base::Name;
use vb_tree::{
    Compare, DefWord, Form6, Literal6, Member6, Module6, Project6, Sign, Suffix, Token, TokenKind,
};

/// The rules that a line breaks which declares nothing, in the module of a name: an Option, Def or Attribute line, a line
/// with WithEvents, or one at the level of the module that is kept as its tokens. Of any other line it has no rule.
pub fn line_rules(name: &Name, form: &Form6) -> RuleSet
    ensures { result ≡ line_rules name.now (form_of form.now) }
{
    match form {
        Form6::Attribute(tokens) => {
            RuleSet::new().with_if(20, gives_other_name(name, tokens.as_slice()))
        }
        Form6::OptionCompare(Compare::Text) => RuleSet::new().with(17),
        Form6::DefType(word, _) => RuleSet::new().with_if(1, is_floating(*word)),
        Form6::EventVariables(_, _) => RuleSet::new().with(4),
        Form6::Opaque(_) => RuleSet::new().with(4),
        _ => RuleSet::new(),
    }
}

fn is_floating(word: DefWord) -> bool
    ensures { result ≡ is_floating word }
{
    matches!(word, DefWord::Single | DefWord::Double | DefWord::Date)
}

// Whether an Attribute with these tokens gives its module another name.
fn gives_other_name(name: &Name, tokens: &[Token]) -> bool
    ensures { result ≡ gives_other_name name.now tokens.now }
{
    match tokens {
        [] => false,
        [first, more @ ..] => is_token_word(&first.kind, b"vb_name") && !gives_name(name, more),
    }
}

fn is_token_word(token: &TokenKind, word: &[u8]) -> bool
    ensures { result ≡ is_token_word word.now token.now }
{
    match token {
        TokenKind::Word(name, Suffix::Absent) => is_word(name, word),
        _ => false,
    }
}

// Whether tokens are an equality sign and a text that is the name.
fn gives_name(name: &Name, tokens: &[Token]) -> bool
    ensures { result ≡ gives_name name.now tokens.now }
{
    match tokens {
        [sign, text] => is_equal_sign(&sign.kind) && is_text(name, &text.kind),
        _ => false,
    }
}

fn is_equal_sign(token: &TokenKind) -> bool
    ensures { result ≡ is_equal_sign token.now }
{
    match token {
        TokenKind::Sign(Sign::Equal) => true,
        _ => false,
    }
}

fn is_text(name: &Name, token: &TokenKind) -> bool
    ensures { result ≡ is_text name.now token.now }
{
    match token {
        TokenKind::Lit(Literal6::Str(text)) => is_same_text(text.as_slice(), name.lower_bytes()),
        _ => false,
    }
}

// Whether a text is one in small letters, but for the letters' case.
fn is_same_text(text: &[u16], small: &[u8]) -> bool
    ensures { result ≡ pointwise nat_eq (lower_case text.now) small.now }
{
    if text.len() != small.len() {
        return false;
    }
    for (i, unit) in text.iter().enumerate() {
        if small_unit(*unit) != u16::from(small[i]) {
            return false;
        }
    }
    true
}

// A unit with a small letter for a capital one.
fn small_unit(unit: u16) -> u16
    ensures { result ≡ to_ascii_lowercase unit }
{
    if 65 <= unit && unit <= 90 {
        unit + 32
    } else {
        unit
    }
}

/// The rules that the line of the project file breaks which says where the program starts: whether Sub Main stands in no
/// standard module, or in several.
pub fn startup_rules(project: &Project6) -> RuleSet
    ensures { result ≡ startup_rules (project_of project.now) }
{
    match project.file.startup {
        None => RuleSet::new(),
        Some(_) => main_rules(count_mains(project.modules.as_slice())),
    }
}

fn main_rules(modules: usize) -> RuleSet
    ensures { result ≡ main_rules modules }
{
    RuleSet::new()
        .with_if(3, modules == 0)
        .with_if(20, 2 <= modules)
}

// How many standard modules have a Sub Main.
fn count_mains(modules: &[Module6]) -> usize
    ensures { result ≡ length (filter has_main (map module_of modules.now)) }
{
    let mut count = 0;
    for module in modules {
        if has_main(module) {
            count += 1;
        }
    }
    count
}

fn has_main(module: &Module6) -> bool
    ensures { result ≡ has_main (module_of «module».now) }
{
    !module.class && any_main(module.members.as_slice())
}

fn any_main(members: &[Member6]) -> bool
    ensures { result ≡ list_any is_main (map member_of members.now) }
{
    for member in members {
        if is_main(member) {
            return true;
        }
    }
    false
}

fn is_main(member: &Member6) -> bool
    ensures { result ≡ is_main (member_of member.now) }
{
    match member {
        Member6::Line(_) => false,
        Member6::Group(_, _, _) => false,
        Member6::Proc(head, _, _) => is_main_head(head_of(&head.form)),
    }
}

fn is_main_head(head: Option<HeadRef>) -> bool
    ensures { result ≡ is_main_head (option_map head_shown head.entry) }
{
    match head {
        Some(head) => is_sub(head.kind) && is_word(&head.signature.name, b"main"),
        None => false,
    }
}
