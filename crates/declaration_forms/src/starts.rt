//! What a line begins with.
ghost use Rattle.std.specs.Prelude.{◌≡◌, ◌∷◌, [], option_map, is_some, ℕ, List};
ghost use Rattle.declaration_forms.specs.Now.{begun_now, part_now, tokens_now};
ghost use Rattle.declaration_forms.specs.Words.{lead_of};
ghost use Rattle.declaration_forms.specs.Starts.{start_of, is_general, is_procedural, general, first_lead, property_kind, property_part, part_of, procedure_part, before_static, head_start, static_start, variables_start, seen_variables, static_variables, property_start, static_line, closed_block, closed_procedure, ends, end_start, procedure_end, plain_start, other_start, declared_start, behind_visibility, seen_start, module_start, seen_constants, seen_in_procedure, local_start, procedure_start, or_member, member_start, group_start};

use crate::events::has_events;
use crate::words::{Lead, lead_at};
use form_parts::is_key;
use vb_tree::{BlockKind, DefWord, ProcKind, Token, VarWord, Visibility};

/// Where a line stands.
#[derive(Clone, Copy, Debug, PartialEq, Eq)]
pub enum Spot {
    /// At module level, outside of procedures, Types and Enums.
    Module,
    /// In a procedure.
    Procedure,
    /// In a Type.
    TypeGroup,
    /// In an Enum.
    EnumGroup,
}

/// What the first words of a line say it is.
#[derive(Clone, Copy)]
pub enum Start {
    Attribute,
    Option,
    /// `DefInt` and its like.
    Def(DefWord),
    Variables(VarWord),
    /// Variables, some of them with WithEvents.
    Events(VarWord),
    Constants(Option<Visibility>),
    Type(Option<Visibility>),
    Enum(Option<Visibility>),
    /// The head of a procedure.
    Head(ProcKind, Option<Visibility>),
    /// The head of a procedure with the word Static, which is left out of what stands behind.
    StaticHead(ProcKind, Option<Visibility>),
    /// A closing line.
    End(BlockKind),
    /// A line that is kept as its tokens.
    Opaque,
    /// A field of a Type.
    Field,
    /// A member of an Enum.
    Member,
}

type Begun<'a> = Option<(Start, &'a [Token])>;

fn is_general(seen: Option<Visibility>) -> bool
    ensures { result ≡ is_general seen }
{
    match seen {
        Some(Visibility::Friend) => false,
        _ => true,
    }
}

fn is_procedural(seen: Option<Visibility>) -> bool
    ensures { result ≡ is_procedural seen }
{
    match seen {
        Some(Visibility::Global) => false,
        _ => true,
    }
}

fn general<'a>(seen: Option<Visibility>, start: Start, rest: &'a [Token]) -> Begun<'a>
    ensures { begun_now result ≡ general seen start rest.now }
{
    if is_general(seen) {
        return Some((start, rest));
    }
    None
}

// Get, Let or Set.
fn property_kind(token: &Token) -> Option<ProcKind>
    ensures { result ≡ property_kind token.now }
{
    if is_key(token, b"get") {
        return Some(ProcKind::Get);
    }
    if is_key(token, b"let") {
        return Some(ProcKind::Let);
    }
    if is_key(token, b"set") {
        return Some(ProcKind::Set);
    }
    None
}

fn property_part(rest: &[Token]) -> Option<(ProcKind, &[Token])>
    ensures { part_now result ≡ property_part rest.now }
{
    match rest {
        [] => None,
        [first, rest @ ..] => {
            let kind = property_kind(first)?;
            Some((kind, rest))
        }
    }
}

fn part_of(lead: Option<Lead>, rest: &[Token]) -> Option<(ProcKind, &[Token])>
    ensures { part_now result ≡ part_of lead rest.now }
{
    match lead {
        Some(Lead::Sub) => Some((ProcKind::Sub, rest)),
        Some(Lead::Function) => Some((ProcKind::Function, rest)),
        Some(Lead::Property) => property_part(rest),
        _ => None,
    }
}

// The procedure that a line is the head of, by its first words.
fn procedure_part(line: &[Token]) -> Option<(ProcKind, &[Token])>
    ensures { part_now result ≡ procedure_part line.now }
{
    match line {
        [] => None,
        [first, rest @ ..] => part_of(lead_at(first), rest),
    }
}

// What stands before the word Static, if a line ends with it.
fn before_static(rest: &[Token]) -> Option<&[Token]>
    ensures { tokens_now result ≡ before_static rest.now }
{
    let (last, before) = rest.split_last()?;
    if is_key(last, b"static") {
        return Some(before);
    }
    None
}

fn head_start(seen: Option<Visibility>, kind: ProcKind, rest: &[Token]) -> Begun<'_>
    ensures { begun_now result ≡ head_start seen (kind, rest.now) }
{
    if !is_procedural(seen) {
        return None;
    }
    match before_static(rest) {
        None => Some((Start::Head(kind, seen), rest)),
        Some(before) => Some((Start::StaticHead(kind, seen), before)),
    }
}

// A head with Static before its kind, where none stands at its end.
fn static_start(seen: Option<Visibility>, kind: ProcKind, rest: &[Token]) -> Begun<'_>
    ensures { begun_now result ≡ static_start seen (kind, rest.now) }
{
    match before_static(rest) {
        None => {
            if is_procedural(seen) {
                return Some((Start::StaticHead(kind, seen), rest));
            }
            None
        }
        Some(_) => None,
    }
}

fn variables_start(word: VarWord, rest: &[Token]) -> (Start, &[Token])
    ensures zero { result.0 ≡ (variables_start word rest.now).0 }
    ensures one { result.1.now ≡ (variables_start word rest.now).1 }
{
    if has_events(rest) {
        return (Start::Events(word), rest);
    }
    (Start::Variables(word), rest)
}

// Variables behind a word of visibility, or none.
fn seen_variables(seen: Option<Visibility>, line: &[Token]) -> Begun<'_>
    ensures { begun_now result ≡ seen_variables seen line.now }
{
    match seen {
        None => None,
        Some(Visibility::Public) => Some(variables_start(VarWord::Public, line)),
        Some(Visibility::Private) => Some(variables_start(VarWord::Private, line)),
        Some(Visibility::Friend) => None,
        Some(Visibility::Global) => Some(variables_start(VarWord::Global, line)),
    }
}

fn static_variables(seen: Option<Visibility>, rest: &[Token]) -> Begun<'_>
    ensures { begun_now result ≡ static_variables seen rest.now }
{
    match seen {
        None => Some(variables_start(VarWord::Static, rest)),
        Some(_) => None,
    }
}

fn property_line<'a>(seen: Option<Visibility>, line: &'a [Token], rest: &'a [Token]) -> Begun<'a>
    ensures { begun_now result ≡ property_start seen line.now (property_part rest.now) }
{
    match property_part(rest) {
        None => seen_variables(seen, line),
        Some((kind, rest)) => head_start(seen, kind, rest),
    }
}

fn static_line(seen: Option<Visibility>, rest: &[Token]) -> Begun<'_>
    ensures { begun_now result ≡ static_line seen rest.now (procedure_part rest.now) }
{
    match procedure_part(rest) {
        None => static_variables(seen, rest),
        Some((kind, rest)) => static_start(seen, kind, rest),
    }
}

// The block that a closing line closes.
fn closed_block(lead: Option<Lead>) -> Option<BlockKind>
    ensures { result ≡ closed_block lead }
{
    match lead {
        Some(Lead::Sub) => Some(BlockKind::Sub),
        Some(Lead::Function) => Some(BlockKind::Function),
        Some(Lead::Property) => Some(BlockKind::Property),
        Some(Lead::Type) => Some(BlockKind::Type),
        Some(Lead::Enum) => Some(BlockKind::Enum),
        _ => None,
    }
}

// The procedure that a closing line closes.
fn closed_procedure(lead: Option<Lead>) -> Option<BlockKind>
    ensures { result ≡ closed_procedure lead }
{
    match lead {
        Some(Lead::Sub) => Some(BlockKind::Sub),
        Some(Lead::Function) => Some(BlockKind::Function),
        Some(Lead::Property) => Some(BlockKind::Property),
        _ => None,
    }
}

fn end_start(rest: &[Token]) -> Begun<'_>
    ensures { begun_now result ≡ end_start rest.now }
{
    match rest {
        [word] => {
            let kind = closed_block(lead_at(word))?;
            Some((Start::End(kind), &rest[1..]))
        }
        _ => None,
    }
}

fn procedure_end(rest: &[Token]) -> Begun<'_>
    ensures { begun_now result ≡ procedure_end rest.now }
{
    match rest {
        [word] => {
            let kind = closed_procedure(lead_at(word))?;
            Some((Start::End(kind), &rest[1..]))
        }
        _ => None,
    }
}

// A line that begins with no word of visibility.
fn plain_start(lead: Option<Lead>, rest: &[Token]) -> Begun<'_>
    ensures { begun_now result ≡ plain_start lead rest.now }
{
    match lead {
        Some(Lead::Attribute) => Some((Start::Attribute, rest)),
        Some(Lead::Option) => Some((Start::Option, rest)),
        Some(Lead::Def(word)) => Some((Start::Def(word), rest)),
        Some(Lead::Dim) => Some(variables_start(VarWord::Dim, rest)),
        Some(Lead::End) => end_start(rest),
        _ => None,
    }
}

// A line that has no word of its own behind its visibility.
fn other_start<'a>(
    seen: Option<Visibility>,
    lead: Option<Lead>,
    line: &'a [Token],
    rest: &'a [Token],
) -> Begun<'a>
    ensures { begun_now result ≡ other_start seen lead line.now rest.now }
{
    match seen {
        None => plain_start(lead, rest),
        Some(_) => seen_variables(seen, line),
    }
}

// A line at module level, behind its visibility.
fn declared_start<'a>(
    seen: Option<Visibility>,
    lead: Option<Lead>,
    line: &'a [Token],
    rest: &'a [Token],
) -> Begun<'a>
    ensures { begun_now result ≡ declared_start seen lead line.now rest.now }
{
    match lead {
        Some(Lead::Const) => general(seen, Start::Constants(seen), rest),
        Some(Lead::Type) => general(seen, Start::Type(seen), rest),
        Some(Lead::Enum) => general(seen, Start::Enum(seen), rest),
        Some(Lead::Declare) => general(seen, Start::Opaque, rest),
        Some(Lead::Event) => general(seen, Start::Opaque, rest),
        Some(Lead::Implements) => general(seen, Start::Opaque, rest),
        Some(Lead::Sub) => head_start(seen, ProcKind::Sub, rest),
        Some(Lead::Function) => head_start(seen, ProcKind::Function, rest),
        Some(Lead::Property) => property_line(seen, line, rest),
        Some(Lead::Static) => static_line(seen, rest),
        _ => other_start(seen, lead, line, rest),
    }
}

fn behind_visibility(seen: Option<Visibility>, line: &[Token]) -> Begun<'_>
    ensures { begun_now result ≡ behind_visibility seen line.now }
{
    match line {
        [] => None,
        [first, rest @ ..] => declared_start(seen, lead_at(first), line, rest),
    }
}

fn seen_start<'a>(lead: Option<Lead>, line: &'a [Token], rest: &'a [Token]) -> Begun<'a>
    ensures { begun_now result ≡ seen_start lead line.now rest.now }
{
    match lead {
        Some(Lead::Seen(seen)) => behind_visibility(Some(seen), rest),
        _ => declared_start(None, lead, line, rest),
    }
}

fn module_start(line: &[Token]) -> Begun<'_>
    ensures { begun_now result ≡ module_start line.now }
{
    match line {
        [] => None,
        [first, rest @ ..] => seen_start(lead_at(first), line, rest),
    }
}

fn seen_in_procedure(seen: Visibility, line: &[Token]) -> Begun<'_>
    ensures { begun_now result ≡ seen_in_procedure seen line.now }
{
    match line {
        [] => None,
        [first, rest @ ..] => match lead_at(first) {
            Some(Lead::Const) => general(Some(seen), Start::Constants(Some(seen)), rest),
            _ => None,
        },
    }
}

fn local_start(lead: Option<Lead>, rest: &[Token]) -> Begun<'_>
    ensures { begun_now result ≡ local_start lead rest.now }
{
    match lead {
        Some(Lead::Attribute) => Some((Start::Attribute, rest)),
        Some(Lead::Dim) => Some((Start::Variables(VarWord::Dim), rest)),
        Some(Lead::Static) => Some((Start::Variables(VarWord::Static), rest)),
        Some(Lead::Const) => Some((Start::Constants(None), rest)),
        Some(Lead::Seen(seen)) => seen_in_procedure(seen, rest),
        Some(Lead::End) => procedure_end(rest),
        _ => None,
    }
}

fn procedure_start(line: &[Token]) -> Begun<'_>
    ensures { begun_now result ≡ procedure_start line.now }
{
    match line {
        [] => None,
        [first, rest @ ..] => local_start(lead_at(first), rest),
    }
}

fn or_member<'a>(start: Start, line: &'a [Token], closing: Begun<'a>) -> Begun<'a>
    ensures { begun_now result ≡ or_member start line.now (begun_now closing.entry) }
{
    match closing {
        None => Some((start, line)),
        Some(closing) => Some(closing),
    }
}

// A closing line, or else a field or a member: a field may have the name End.
fn member_start<'a>(
    start: Start,
    lead: Option<Lead>,
    line: &'a [Token],
    rest: &'a [Token],
) -> Begun<'a>
    ensures { begun_now result ≡ member_start start lead line.now rest.now }
{
    match lead {
        Some(Lead::End) => or_member(start, line, end_start(rest)),
        _ => Some((start, line)),
    }
}

fn group_start(start: Start, line: &[Token]) -> Begun<'_>
    ensures { begun_now result ≡ group_start start line.now }
{
    match line {
        [] => None,
        [first, rest @ ..] => member_start(start, lead_at(first), line, rest),
    }
}

/// What a line begins with, and what stands behind it.
pub fn start_of(spot: Spot, line: &[Token]) -> Begun<'_>
    ensures { begun_now result ≡ start_of spot line.now }
{
    match spot {
        Spot::Module => module_start(line),
        Spot::Procedure => procedure_start(line),
        Spot::TypeGroup => group_start(Start::Field, line),
        Spot::EnumGroup => group_start(Start::Member, line),
    }
}

/// Whether a line in a procedure begins as a declaration or is a closing line of the procedure. No other line there has
/// a form that `read_declaration` reads.
pub fn begins_declaration(line: &[Token]) -> bool
    ensures { result ≡ is_some (procedure_start line.now) }
{
    procedure_start(line).is_some()
}
