//! Types, literals, operators and expressions.
ghost use Rattle.std.specs.Prelude.{◌≡◌, nat_le};
ghost use Rattle.net_tree.specs.Depth.{depth_type};
ghost use Rattle.net_tree.specs.View.{type_name_of};

use up_base::{Name, Sequence, Wide};

/// How deep an expression may be nested, and how many arrays a type may be: reading one and letting go of it takes some of the
/// stack for each level.
pub const MOST_NESTED: u16 = 1000;

/// A name with those that qualify it, from the outermost.
pub type Path = Sequence<Name>;

/// A type.
#[derive(Drop)]
pub enum NetType {
    Boolean,
    Byte,
    Short,
    Integer,
    Long,
    Decimal,
    /// `String`
    Str,
    Object,
    /// `System.Array`
    SystemArray,
    /// A class or a structure.
    Named(Path),
    /// An array of this element type, with its number of dimensions.
    ArrayOf(Box<NetType>, u8),
}

impl NetType {
    /// Whether it is no more than so many arrays, each the element type of the one before.
    #[tactic(auto, using(crate::proofs::TypeDepths::without_room, crate::proofs::TypeDepths::one_level))]
    pub fn is_within(&self, room: u16) -> bool
        ensures { result ≡ nat_le (depth_type (type_name_of self.now)) room }
    {
        match self {
            NetType::ArrayOf(element, _) => room != 0 && element.is_within(room - 1),
            _ => true,
        }
    }
}

/// A literal. The flag of a Short or an Integer tells whether it is spelt `&H`, as the digits of its bit pattern.
#[derive(Drop)]
pub enum NetLit {
    Boolean(bool),
    Short(i16, bool),
    Integer(i32, bool),
    Long(i64),
    /// A Decimal, in ten-thousandths.
    Decimal(i128),
    /// A text, as UTF-16 units without the quotes.
    Str(Wide),
}

/// The word of a conversion.
#[derive(Clone, Copy, Debug, PartialEq, Eq)]
pub enum CastWord {
    CBool,
    CByte,
    CShort,
    CInt,
    CLng,
    CDec,
    CStr,
    CObj,
}

/// An operator before one operand.
#[derive(Clone, Copy, Debug, PartialEq, Eq)]
pub enum NetUn {
    /// `-`
    Neg,
    /// `Not`
    Not,
}

/// An operator between two operands.
#[derive(Clone, Copy, Debug, PartialEq, Eq)]
pub enum NetBin {
    /// `+`
    Add,
    /// `-`
    Sub,
    /// `*`
    Mul,
    /// `\`
    IntDiv,
    /// `Mod`
    Mod,
    /// `&`
    Concat,
    /// `=`
    Equal,
    /// `<>`
    NotEqual,
    /// `<`
    Less,
    /// `>`
    Greater,
    /// `<=`
    LessEqual,
    /// `>=`
    GreaterEqual,
    /// `And`
    And,
    /// `Or`
    Or,
    /// `Xor`
    Xor,
    /// `Is`
    Is,
}

/// An operator. A unary one passes over its second operand.
#[derive(Clone, Copy, Debug, PartialEq, Eq)]
pub enum OpN {
    Bin(NetBin),
    Un(NetUn),
}

/// An expression, or a target.
#[derive(Drop)]
pub enum NetExpr {
    Lit(NetLit),
    Nothing,
    Me,
    /// A variable, a function without arguments, or what they are qualified by: `n.n`.
    Path(Path),
    /// A member of the innermost With's object: `.n`.
    WithDot(Name),
    /// A member of what an expression gives: `e.n`.
    Dot(Box<NetExpr>, Name),
    /// An expression with an argument list: a call or an element.
    Call(Box<NetExpr>, Vec<NetExpr>),
    /// `CInt(e)` and its like.
    Cast(CastWord, Box<NetExpr>),
    /// `CType(e, t)`
    CType(Box<NetExpr>, NetType),
    Unary(NetUn, Box<NetExpr>),
    Binary(NetBin, Box<NetExpr>, Box<NetExpr>),
    /// An expression in parentheses.
    Paren(Box<NetExpr>),
    /// `New t(args)`
    NewObject(NetType, Vec<NetExpr>),
    /// `New t(e, e) {}`: an array without items of its own, with the upper bound of each dimension.
    NewArray(NetType, Vec<NetExpr>),
    /// `(TypeOf e Is t)`
    TypeOf(Box<NetExpr>, NetType),
}
