//! Code lines.
ghost use Rattle.std.specs.Prelude.{◌≡◌};
ghost use Rattle.vb_tree.specs.Blocks.{is_code, role_of, declaration_role, statement_role};
ghost use Rattle.vb_tree.specs.View.{form_of};

use crate::{
    Arg6, BlockKind, CaseItem6, Compare, Constant6, Counting6, Declarator6, DefWord, ExitKind,
    Expr6, Field6, Label6, LetterRange, ProcKind, ReDimItem6, Result6, Role, Signature6, Suffix,
    Tokens, VarWord, Visibility,
};
use up_base::{Name, Place, Sequence, Wide};

/// What a line is, with its parts. Below, e is an expression, n a name with its suffix, l a target, t a type and b the
/// bounds of an array; brackets mean optional.
#[derive(Drop)]
pub enum Form6 {
    /// `Attribute` and any tokens.
    Attribute(Tokens),
    /// `Option Explicit`
    OptionExplicit,
    /// `Option Base` with a lower bound, 0 or 1.
    OptionBase(i32),
    /// `Option Compare Binary` or `Text`
    OptionCompare(Compare),
    /// `Option Private Module`
    OptionPrivateModule,
    /// `DefInt a-z` and its like.
    DefType(DefWord, Sequence<LetterRange>),
    /// `Dim`, `Static`, `Public`, `Private` or `Global`, and declarations of variables.
    Variables(VarWord, Sequence<Declarator6>),
    /// `[visibility] Const` and declarations of constants.
    Constants(Option<Visibility>, Sequence<Constant6>),
    /// `[visibility] Type n`
    TypeHead(Option<Visibility>, Name, Suffix),
    /// A field of a Type.
    Field(Box<Field6>),
    /// `End Type`
    EndType,
    /// `[visibility] Enum n`
    EnumHead(Option<Visibility>, Name, Suffix),
    /// A member of an Enum: `n [= e]`.
    EnumMember(Name, Suffix, Option<Box<Expr6>>),
    /// `End Enum`
    EndEnum,
    /// `[visibility] Sub n [(params)]`
    SubHead(Signature6),
    /// `[visibility] Function n [(params)] [As t [()]]`
    FunctionHead(Signature6, Option<Box<Result6>>),
    /// `[visibility] Property Get n [(params)] [As t [()]]`
    GetHead(Signature6, Option<Box<Result6>>),
    /// `[visibility] Property Let n [(params)]`
    LetHead(Signature6),
    /// `[visibility] Property Set n [(params)]`
    SetHead(Signature6),
    /// `End Sub`
    EndSub,
    /// `End Function`
    EndFunction,
    /// `End Property`
    EndProperty,
    /// `[Let] l = e`
    Assign(Box<Expr6>, Box<Expr6>),
    /// `Set l = e`
    Set(Box<Expr6>, Box<Expr6>),
    /// `Call l`
    Call(Expr6),
    /// A callee and arguments without the word Call.
    Invoke(Box<Expr6>, Sequence<Arg6>),
    /// `Debug.Print` with items, and whether a semicolon ends it.
    DebugPrint(Sequence<Expr6>, bool),
    /// `If e Then`
    If(Expr6),
    /// `ElseIf e Then`
    ElseIf(Expr6),
    /// `Else`
    Else,
    /// `End If`, and the end of an If on one line.
    EndIf,
    /// The head of an If on one line: `If e Then`, with statements behind it.
    LineIf(Expr6),
    /// `Select Case e`
    Select(Expr6),
    /// `Case` and items.
    Case(Sequence<CaseItem6>),
    /// `Case Else`
    CaseElse,
    /// `End Select`
    EndSelect,
    /// `For l = e To e [Step e]`
    For(Box<Counting6>),
    /// `For Each n In e`
    ForEach(Name, Suffix, Box<Expr6>),
    /// `Next` with one of its names, or without.
    Next(Option<(Name, Suffix)>),
    /// `Do`
    Do,
    /// `Do While e`
    DoWhile(Expr6),
    /// `Do Until e`
    DoUntil(Expr6),
    /// `Loop`
    Loop,
    /// `Loop While e`
    LoopWhile(Expr6),
    /// `Loop Until e`
    LoopUntil(Expr6),
    /// `While e`
    While(Expr6),
    /// `Wend`
    Wend,
    /// `With e`
    With(Expr6),
    /// `End With`
    EndWith,
    /// `GoTo` a label.
    GoTo(Label6),
    /// A label.
    Label(Label6),
    /// `On Error GoTo` a label.
    OnErrorGoTo(Label6),
    /// `On Error GoTo 0`
    OnErrorGoToZero,
    /// `On Error Resume Next`
    OnErrorResumeNext,
    /// `Resume` or `Resume 0`
    Resume,
    /// `Resume Next`
    ResumeNext,
    /// `Resume` at a label.
    ResumeAt(Label6),
    /// `Exit Sub` and its like.
    Exit(ExitKind),
    /// `ReDim [Preserve]` and arrays; whether Preserve is written.
    ReDim(bool, Sequence<ReDimItem6>),
    /// `Erase` of one array.
    Erase(Expr6),
    /// The head of a procedure with the word Static, which has a result where its kind has one.
    StaticHead(ProcKind, Signature6, Option<Box<Result6>>),
    /// `Dim`, `Public`, `Private` or `Global`, and declarations of variables, WithEvents before one of them at least.
    EventVariables(VarWord, Sequence<Declarator6>),
    /// A line that is kept as its tokens alone.
    Opaque(Tokens),
}

impl Form6 {
    /// What the line is to the blocks round it.
    pub fn role(&self) -> Role
        ensures { result ≡ role_of (form_of self.now) }
    {
        match self.declaration_role() {
            Role::Plain => self.statement_role(),
            Role::Opens(kind) => Role::Opens(kind),
            Role::Parts(kind) => Role::Parts(kind),
            Role::Closes(kind) => Role::Closes(kind),
        }
    }

    // What the head or the closing line of a procedure or of a group is to it.
    fn declaration_role(&self) -> Role
        ensures { result ≡ declaration_role (form_of self.now) }
    {
        match self {
            Form6::TypeHead(_, _, _) => Role::Opens(BlockKind::Type),
            Form6::EndType => Role::Closes(BlockKind::Type),
            Form6::EnumHead(_, _, _) => Role::Opens(BlockKind::Enum),
            Form6::EndEnum => Role::Closes(BlockKind::Enum),
            Form6::SubHead(_) => Role::Opens(BlockKind::Sub),
            Form6::FunctionHead(_, _) => Role::Opens(BlockKind::Function),
            Form6::GetHead(_, _) => Role::Opens(BlockKind::Property),
            Form6::LetHead(_) => Role::Opens(BlockKind::Property),
            Form6::SetHead(_) => Role::Opens(BlockKind::Property),
            Form6::EndSub => Role::Closes(BlockKind::Sub),
            Form6::EndFunction => Role::Closes(BlockKind::Function),
            Form6::EndProperty => Role::Closes(BlockKind::Property),
            Form6::StaticHead(kind, _, _) => Role::Opens(kind.block()),
            _ => Role::Plain,
        }
    }

    // What a statement is to the blocks round it.
    fn statement_role(&self) -> Role
        ensures { result ≡ statement_role (form_of self.now) }
    {
        match self {
            Form6::If(_) => Role::Opens(BlockKind::If),
            Form6::LineIf(_) => Role::Opens(BlockKind::If),
            Form6::ElseIf(_) => Role::Parts(BlockKind::If),
            Form6::Else => Role::Parts(BlockKind::If),
            Form6::EndIf => Role::Closes(BlockKind::If),
            Form6::Select(_) => Role::Opens(BlockKind::Select),
            Form6::Case(_) => Role::Parts(BlockKind::Select),
            Form6::CaseElse => Role::Parts(BlockKind::Select),
            Form6::EndSelect => Role::Closes(BlockKind::Select),
            Form6::For(_) => Role::Opens(BlockKind::For),
            Form6::ForEach(_, _, _) => Role::Opens(BlockKind::For),
            Form6::Next(_) => Role::Closes(BlockKind::For),
            Form6::Do => Role::Opens(BlockKind::Do),
            Form6::DoWhile(_) => Role::Opens(BlockKind::Do),
            Form6::DoUntil(_) => Role::Opens(BlockKind::Do),
            Form6::Loop => Role::Closes(BlockKind::Do),
            Form6::LoopWhile(_) => Role::Closes(BlockKind::Do),
            Form6::LoopUntil(_) => Role::Closes(BlockKind::Do),
            Form6::While(_) => Role::Opens(BlockKind::While),
            Form6::Wend => Role::Closes(BlockKind::While),
            Form6::With(_) => Role::Opens(BlockKind::With),
            Form6::EndWith => Role::Closes(BlockKind::With),
            _ => Role::Plain,
        }
    }

    /// Whether a line in a procedure is a code line: one that isn't a declaration.
    pub fn is_code(&self) -> bool
        ensures { result ≡ is_code (form_of self.now) }
    {
        !matches!(
            self,
            Form6::Attribute(_) | Form6::Variables(_, _) | Form6::Constants(_, _)
        )
    }
}

/// A code line or a declaration line.
#[derive(Drop)]
pub struct CodeLine {
    /// The first physical line of its logical line.
    pub place: Place,
    /// Its text in UTF-16 units: the part of the logical line that is its own.
    pub text: Wide,
    /// What it is, behind a Box, so that lines of all forms are small.
    pub form: Box<Form6>,
}
