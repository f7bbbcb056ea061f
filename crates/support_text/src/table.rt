//! The functions that are the same for all projects, as they are made.
ghost use Rattle.std.specs.Prelude.{◌≡◌, Some, map};
ghost use Rattle.support_text.specs.FixedFunctions.{printing_functions, basic_functions, variant_functions, arithmetic_functions, logic_functions, conversion_functions, assignment_functions};
ghost use Rattle.support_text.specs.Steps.{built};

use crate::step::Arguments::{One, Two, Zero};
use crate::step::Parameter::{ByRef, ByVal};
use crate::step::Routine;
use crate::step::SimpleType::{
    Boolean, Byte, Decimal, Integer, Long, Object, Short, Str, SystemArray,
};
use crate::step::Step::{
    Amount, Assign, Binary, Call, CallLine, Cast, Dot, Else, ElseIf, EndIf, If, Local, LongNumber,
    Name, New, Nothing, Number, Path, Text, TypeOf, Unary,
};
use net_tree::CastWord::{CBool, CByte, CDec, CInt, CLng, CShort, CStr};
use net_tree::NetBin::{
    Add, And, Concat, Equal, Greater, GreaterEqual, IntDiv, Is, Less, LessEqual, Mod, Mul, Or, Sub,
    Xor,
};
use net_tree::NetUn::{Neg, Not};

#[rattlefmt::skip]
static PRINTING: [Routine; 7] = [
    Routine {
        name: b"PrintLine",
        params: &[ByVal(b"s", Str)],
        result: None,
        steps: &[
            Path(&[b"System", b"Console", b"WriteLine"]), Name(b"s"), CallLine(One),
        ],
    },
    Routine {
        name: b"PrintPart",
        params: &[ByVal(b"s", Str)],
        result: None,
        steps: &[
            Path(&[b"System", b"Console", b"Write"]), Name(b"s"), CallLine(One),
        ],
    },
    Routine {
        name: b"Box",
        params: &[ByVal(b"s", Str)],
        result: None,
        steps: &[
            Path(&[b"Microsoft", b"VisualBasic", b"Interaction", b"MsgBox"]), Name(b"s"), CallLine(One),
        ],
    },
    Routine {
        name: b"Ask",
        params: &[ByVal(b"s", Str)],
        result: Some(Str),
        steps: &[
            Path(&[b"Microsoft", b"VisualBasic", b"Interaction", b"InputBox"]), Name(b"s"), Call(One), Assign(b"Ask"),
        ],
    },
    Routine {
        name: b"CurText",
        params: &[ByVal(b"d", Decimal)],
        result: Some(Str),
        steps: &[
            Path(&[b"d", b"ToString"]), Text(b"0.####"),
                Path(&[b"System", b"Globalization", b"CultureInfo", b"InvariantCulture"]), Call(Two), Assign(b"CurText"),
        ],
    },
    Routine {
        name: b"PrintNum",
        params: &[ByVal(b"d", Decimal)],
        result: Some(Str),
        steps: &[
            Name(b"d"), Amount(0), Binary(Less), If,
            Name(b"CurText"), Name(b"d"), Call(One), Text(b" "), Binary(Concat), Assign(b"PrintNum"),
            Else,
            Text(b" "), Name(b"CurText"), Name(b"d"), Call(One), Binary(Concat), Text(b" "), Binary(Concat),
                Assign(b"PrintNum"),
            EndIf,
        ],
    },
    Routine {
        name: b"PrintVar",
        params: &[ByVal(b"v", Object)],
        result: Some(Str),
        steps: &[
            Name(b"Rank"), Name(b"v"), Call(One), Number(6), Binary(Equal), Name(b"v"), Nothing, Binary(Is), Name(b"v"),
                TypeOf(Boolean), Binary(Or), Binary(Or), If,
            Name(b"VarStr"), Name(b"v"), Call(One), Assign(b"PrintVar"),
            Else,
            Name(b"PrintNum"), Name(b"Num"), Name(b"v"), Call(One), Call(One), Assign(b"PrintVar"),
            EndIf,
        ],
    },
];

/// The routines of what prints and asks.
pub(crate) fn printing_routines() -> &'static [Routine]
    ensures { map built result.now ≡ map Some printing_functions }
{
    &PRINTING
}

#[rattlefmt::skip]
static BASIC: [Routine; 11] = [
    Routine {
        name: b"Cur",
        params: &[ByVal(b"d", Decimal)],
        result: Some(Decimal),
        steps: &[
            Name(b"d"), Amount(9_223_372_036_854_775_808), Unary(Neg), Binary(Less), Name(b"d"),
                Amount(9_223_372_036_854_775_807), Binary(Greater), Binary(Or), If,
            Name(b"Raise"), Number(6), CallLine(One),
            EndIf,
            Name(b"d"), Assign(b"Cur"),
        ],
    },
    Routine {
        name: b"At",
        params: &[ByVal(b"i", Integer), ByVal(b"b", Integer)],
        result: Some(Integer),
        steps: &[
            Name(b"i"), Cast(CLng), Name(b"b"), Cast(CLng), Binary(Sub), Local(b"d", Long),
            Name(b"d"), LongNumber(0), Binary(Less), Name(b"d"), LongNumber(2_147_483_647), Binary(Greater), Binary(Or), If,
            Number(1), Unary(Neg), Assign(b"At"),
            Else,
            Name(b"d"), Cast(CInt), Assign(b"At"),
            EndIf,
        ],
    },
    Routine {
        name: b"Top",
        params: &[ByVal(b"h", Integer), ByVal(b"b", Integer)],
        result: Some(Integer),
        steps: &[
            Name(b"h"), Name(b"b"), Binary(Less), If,
            Name(b"Raise"), Number(9), CallLine(One),
            EndIf,
            Name(b"h"), Name(b"b"), Binary(Sub), Assign(b"Top"),
        ],
    },
    Routine {
        name: b"Hi",
        params: &[ByVal(b"a", SystemArray), ByVal(b"d", Integer), ByVal(b"b", Integer)],
        result: Some(Integer),
        steps: &[
            Path(&[b"a", b"Length"]), Number(0), Binary(Equal), If,
            Name(b"Raise"), Number(9), CallLine(One),
            EndIf,
            Path(&[b"a", b"GetUpperBound"]), Name(b"d"), Call(One), Name(b"b"), Binary(Add), Assign(b"Hi"),
        ],
    },
    Routine {
        name: b"Lo",
        params: &[ByVal(b"a", SystemArray), ByVal(b"b", Integer)],
        result: Some(Integer),
        steps: &[
            Path(&[b"a", b"Length"]), Number(0), Binary(Equal), If,
            Name(b"Raise"), Number(9), CallLine(One),
            EndIf,
            Name(b"b"), Assign(b"Lo"),
        ],
    },
    Routine {
        name: b"Fix",
        params: &[ByVal(b"s", Str), ByVal(b"n", Integer)],
        result: Some(Str),
        steps: &[
            Path(&[b"Microsoft", b"VisualBasic", b"Strings", b"Left"]), Name(b"s"), Name(b"n"), Call(Two), Dot(b"PadRight"),
                Name(b"n"), Call(One), Assign(b"Fix"),
        ],
    },
    Routine {
        name: b"FixNew",
        params: &[ByVal(b"n", Integer)],
        result: Some(Str),
        steps: &[
            Path(&[b"Microsoft", b"VisualBasic", b"Strings", b"ChrW"]), Number(0), Call(One), Name(b"n"),
                New(&[b"System", b"String"], Two), Assign(b"FixNew"),
        ],
    },
    Routine {
        name: b"ErrNumber",
        params: &[],
        result: Some(Integer),
        steps: &[
            Path(&[b"Microsoft", b"VisualBasic", b"Information", b"Err"]), Call(Zero), Dot(b"Number"), Assign(b"ErrNumber"),
        ],
    },
    Routine {
        name: b"Raise",
        params: &[ByVal(b"n", Integer)],
        result: None,
        steps: &[
            Path(&[b"Microsoft", b"VisualBasic", b"Information", b"Err"]), Call(Zero), Dot(b"Raise"), Name(b"n"), CallLine(One),
        ],
    },
    Routine {
        name: b"ErrClear",
        params: &[],
        result: None,
        steps: &[
            Path(&[b"Microsoft", b"VisualBasic", b"Information", b"Err"]), Call(Zero), Dot(b"Clear"), CallLine(Zero),
        ],
    },
    Routine {
        name: b"NotUpgraded",
        params: &[ByVal(b"n", Integer)],
        result: Some(Integer),
        steps: &[
            Name(b"Raise"), Number(1000), Name(b"n"), Binary(Add), CallLine(One),
        ],
    },
];

/// The routines of what keeps amounts and places within bounds, texts of a fixed length, and errors.
pub(crate) fn basic_routines() -> &'static [Routine]
    ensures { map built result.now ≡ map Some basic_functions }
{
    &BASIC
}

#[rattlefmt::skip]
static VARIANT: [Routine; 4] = [
    Routine {
        name: b"Rank",
        params: &[ByVal(b"v", Object)],
        result: Some(Integer),
        steps: &[
            Name(b"v"), TypeOf(Str), If,
            Number(6), Assign(b"Rank"),
            Name(b"v"), TypeOf(Decimal), ElseIf,
            Number(5), Assign(b"Rank"),
            Name(b"v"), TypeOf(Integer), ElseIf,
            Number(4), Assign(b"Rank"),
            Name(b"v"), TypeOf(Byte), ElseIf,
            Number(2), Assign(b"Rank"),
            Else,
            Number(3), Assign(b"Rank"),
            EndIf,
        ],
    },
    Routine {
        name: b"Wider",
        params: &[ByVal(b"a", Object), ByVal(b"b", Object)],
        result: Some(Integer),
        steps: &[
            Path(&[b"System", b"Math", b"Max"]), Name(b"Rank"), Name(b"a"), Call(One), Name(b"Rank"), Name(b"b"), Call(One),
                Call(Two), Assign(b"Wider"),
        ],
    },
    Routine {
        name: b"Num",
        params: &[ByVal(b"v", Object)],
        result: Some(Decimal),
        steps: &[
            Name(b"Rank"), Name(b"v"), Call(One), Number(6), Binary(Equal), If,
            Name(b"Raise"), Number(13), CallLine(One),
            EndIf,
            Name(b"v"), Cast(CDec), Assign(b"Num"),
        ],
    },
    Routine {
        name: b"Fit",
        params: &[ByVal(b"d", Decimal), ByVal(b"k", Integer)],
        result: Some(Object),
        steps: &[
            Name(b"k"), Number(5), Binary(Equal), If,
            Name(b"Cur"), Name(b"d"), Call(One), Assign(b"Fit"),
            Name(b"k"), Number(2), Binary(Equal), Name(b"d"), Amount(0), Binary(GreaterEqual), Binary(And), Name(b"d"),
                Amount(2_550_000), Binary(LessEqual), Binary(And), ElseIf,
            Name(b"d"), Cast(CByte), Assign(b"Fit"),
            Name(b"k"), Number(4), Binary(Less), Name(b"d"), Amount(327_680_000), Unary(Neg), Binary(GreaterEqual), Binary(And),
                Name(b"d"), Amount(327_670_000), Binary(LessEqual), Binary(And), ElseIf,
            Name(b"d"), Cast(CShort), Assign(b"Fit"),
            Else,
            Name(b"d"), Cast(CInt), Assign(b"Fit"),
            EndIf,
        ],
    },
];

/// The routines of what a Variant holds.
pub(crate) fn variant_routines() -> &'static [Routine]
    ensures { map built result.now ≡ map Some variant_functions }
{
    &VARIANT
}

#[rattlefmt::skip]
static ARITHMETIC: [Routine; 6] = [
    Routine {
        name: b"VarAdd",
        params: &[ByVal(b"a", Object), ByVal(b"b", Object)],
        result: Some(Object),
        steps: &[
            Name(b"Wider"), Name(b"a"), Name(b"b"), Call(Two), Number(6), Binary(Equal), If,
            Name(b"VarStr"), Name(b"a"), Call(One), Name(b"VarStr"), Name(b"b"), Call(One), Binary(Concat), Assign(b"VarAdd"),
            Else,
            Name(b"Fit"), Name(b"Num"), Name(b"a"), Call(One), Name(b"Num"), Name(b"b"), Call(One), Binary(Add), Name(b"Wider"),
                Name(b"a"), Name(b"b"), Call(Two), Call(Two), Assign(b"VarAdd"),
            EndIf,
        ],
    },
    Routine {
        name: b"VarSub",
        params: &[ByVal(b"a", Object), ByVal(b"b", Object)],
        result: Some(Object),
        steps: &[
            Name(b"Fit"), Name(b"Num"), Name(b"a"), Call(One), Name(b"Num"), Name(b"b"), Call(One), Binary(Sub), Name(b"Wider"),
                Name(b"a"), Name(b"b"), Call(Two), Call(Two), Assign(b"VarSub"),
        ],
    },
    Routine {
        name: b"VarMul",
        params: &[ByVal(b"a", Object), ByVal(b"b", Object)],
        result: Some(Object),
        steps: &[
            Name(b"Fit"), Name(b"Num"), Name(b"a"), Call(One), Name(b"Num"), Name(b"b"), Call(One), Binary(Mul), Name(b"Wider"),
                Name(b"a"), Name(b"b"), Call(Two), Call(Two), Assign(b"VarMul"),
        ],
    },
    Routine {
        name: b"VarDiv",
        params: &[ByVal(b"a", Object), ByVal(b"b", Object)],
        result: Some(Object),
        steps: &[
            Name(b"Fit"), Name(b"Num"), Name(b"a"), Call(One), Cast(CInt), Name(b"Num"), Name(b"b"), Call(One), Cast(CInt),
                Binary(IntDiv), Cast(CDec), Path(&[b"System", b"Math", b"Min"]), Name(b"Wider"), Name(b"a"), Name(b"b"),
                Call(Two), Number(4), Call(Two), Call(Two), Assign(b"VarDiv"),
        ],
    },
    Routine {
        name: b"VarMod",
        params: &[ByVal(b"a", Object), ByVal(b"b", Object)],
        result: Some(Object),
        steps: &[
            Name(b"Fit"), Name(b"Num"), Name(b"a"), Call(One), Cast(CInt), Name(b"Num"), Name(b"b"), Call(One), Cast(CInt),
                Binary(Mod), Cast(CDec), Path(&[b"System", b"Math", b"Min"]), Name(b"Wider"), Name(b"a"), Name(b"b"), Call(Two),
                Number(4), Call(Two), Call(Two), Assign(b"VarMod"),
        ],
    },
    Routine {
        name: b"VarNeg",
        params: &[ByVal(b"a", Object)],
        result: Some(Object),
        steps: &[
            Name(b"Fit"), Name(b"Num"), Name(b"a"), Call(One), Unary(Neg), Name(b"Rank"), Name(b"a"), Call(One), Call(Two),
                Assign(b"VarNeg"),
        ],
    },
];

/// The routines of arithmetic on Variants.
pub(crate) fn arithmetic_routines() -> &'static [Routine]
    ensures { map built result.now ≡ map Some arithmetic_functions }
{
    &ARITHMETIC
}

#[rattlefmt::skip]
static LOGIC: [Routine; 4] = [
    Routine {
        name: b"VarNot",
        params: &[ByVal(b"a", Object)],
        result: Some(Object),
        steps: &[
            Name(b"a"), TypeOf(Boolean), If,
            Name(b"a"), Cast(CBool), Unary(Not), Assign(b"VarNot"),
            Else,
            Name(b"Fit"), Name(b"Num"), Name(b"a"), Call(One), Cast(CInt), Unary(Not), Cast(CDec),
                Path(&[b"System", b"Math", b"Min"]), Name(b"Rank"), Name(b"a"), Call(One), Number(4), Call(Two), Call(Two),
                Assign(b"VarNot"),
            EndIf,
        ],
    },
    Routine {
        name: b"VarAnd",
        params: &[ByVal(b"a", Object), ByVal(b"b", Object)],
        result: Some(Object),
        steps: &[
            Name(b"a"), TypeOf(Boolean), Name(b"b"), TypeOf(Boolean), Binary(And), If,
            Name(b"a"), Cast(CBool), Name(b"b"), Cast(CBool), Binary(And), Assign(b"VarAnd"),
            Else,
            Name(b"Fit"), Name(b"Num"), Name(b"a"), Call(One), Cast(CInt), Name(b"Num"), Name(b"b"), Call(One), Cast(CInt),
                Binary(And), Cast(CDec), Path(&[b"System", b"Math", b"Min"]), Name(b"Wider"), Name(b"a"), Name(b"b"), Call(Two),
                Number(4), Call(Two), Call(Two), Assign(b"VarAnd"),
            EndIf,
        ],
    },
    Routine {
        name: b"VarOr",
        params: &[ByVal(b"a", Object), ByVal(b"b", Object)],
        result: Some(Object),
        steps: &[
            Name(b"a"), TypeOf(Boolean), Name(b"b"), TypeOf(Boolean), Binary(And), If,
            Name(b"a"), Cast(CBool), Name(b"b"), Cast(CBool), Binary(Or), Assign(b"VarOr"),
            Else,
            Name(b"Fit"), Name(b"Num"), Name(b"a"), Call(One), Cast(CInt), Name(b"Num"), Name(b"b"), Call(One), Cast(CInt),
                Binary(Or), Cast(CDec), Path(&[b"System", b"Math", b"Min"]), Name(b"Wider"), Name(b"a"), Name(b"b"), Call(Two),
                Number(4), Call(Two), Call(Two), Assign(b"VarOr"),
            EndIf,
        ],
    },
    Routine {
        name: b"VarXor",
        params: &[ByVal(b"a", Object), ByVal(b"b", Object)],
        result: Some(Object),
        steps: &[
            Name(b"a"), TypeOf(Boolean), Name(b"b"), TypeOf(Boolean), Binary(And), If,
            Name(b"a"), Cast(CBool), Name(b"b"), Cast(CBool), Binary(Xor), Assign(b"VarXor"),
            Else,
            Name(b"Fit"), Name(b"Num"), Name(b"a"), Call(One), Cast(CInt), Name(b"Num"), Name(b"b"), Call(One), Cast(CInt),
                Binary(Xor), Cast(CDec), Path(&[b"System", b"Math", b"Min"]), Name(b"Wider"), Name(b"a"), Name(b"b"), Call(Two),
                Number(4), Call(Two), Call(Two), Assign(b"VarXor"),
            EndIf,
        ],
    },
];

/// The routines of logic on Variants.
pub(crate) fn logic_routines() -> &'static [Routine]
    ensures { map built result.now ≡ map Some logic_functions }
{
    &LOGIC
}

#[rattlefmt::skip]
static CONVERSION: [Routine; 7] = [
    Routine {
        name: b"VarStr",
        params: &[ByVal(b"v", Object)],
        result: Some(Str),
        steps: &[
            Name(b"v"), TypeOf(Decimal), If,
            Name(b"CurText"), Name(b"v"), Cast(CDec), Call(One), Assign(b"VarStr"),
            Else,
            Name(b"v"), Cast(CStr), Assign(b"VarStr"),
            EndIf,
        ],
    },
    Routine {
        name: b"VarComp",
        params: &[ByVal(b"a", Object), ByVal(b"b", Object)],
        result: Some(Integer),
        steps: &[
            Name(b"Wider"), Name(b"a"), Name(b"b"), Call(Two), Number(6), Binary(Equal), If,
            Path(&[b"System", b"String", b"CompareOrdinal"]), Text(b""), Name(b"VarStr"), Name(b"a"), Call(One), Binary(Concat),
                Text(b""), Name(b"VarStr"), Name(b"b"), Call(One), Binary(Concat), Call(Two), Assign(b"VarComp"),
            Else,
            Path(&[b"System", b"Decimal", b"Compare"]), Name(b"Num"), Name(b"a"), Call(One), Name(b"Num"), Name(b"b"),
                Call(One), Call(Two), Assign(b"VarComp"),
            EndIf,
        ],
    },
    Routine {
        name: b"VarByte",
        params: &[ByVal(b"v", Object)],
        result: Some(Byte),
        steps: &[
            Name(b"v"), TypeOf(Boolean), If,
            Name(b"v"), Cast(CBool), Cast(CByte), Assign(b"VarByte"),
            Else,
            Name(b"Num"), Name(b"v"), Call(One), Cast(CByte), Assign(b"VarByte"),
            EndIf,
        ],
    },
    Routine {
        name: b"VarShort",
        params: &[ByVal(b"v", Object)],
        result: Some(Short),
        steps: &[
            Name(b"Num"), Name(b"v"), Call(One), Cast(CShort), Assign(b"VarShort"),
        ],
    },
    Routine {
        name: b"VarInt",
        params: &[ByVal(b"v", Object)],
        result: Some(Integer),
        steps: &[
            Name(b"Num"), Name(b"v"), Call(One), Cast(CInt), Assign(b"VarInt"),
        ],
    },
    Routine {
        name: b"VarBool",
        params: &[ByVal(b"v", Object)],
        result: Some(Boolean),
        steps: &[
            Name(b"Num"), Name(b"v"), Call(One), Cast(CBool), Assign(b"VarBool"),
        ],
    },
    Routine {
        name: b"VarCur",
        params: &[ByVal(b"v", Object)],
        result: Some(Decimal),
        steps: &[
            Name(b"Cur"), Name(b"Num"), Name(b"v"), Call(One), Call(One), Assign(b"VarCur"),
        ],
    },
];

/// The routines of conversions and the comparison of Variants.
pub(crate) fn conversion_routines() -> &'static [Routine]
    ensures { map built result.now ≡ map Some conversion_functions }
{
    &CONVERSION
}

#[rattlefmt::skip]
static ASSIGNMENT: [Routine; 7] = [
    Routine {
        name: b"PutShort",
        params: &[ByVal(b"v", Short), ByRef(b"t", Short)],
        result: None,
        steps: &[
            Name(b"v"), Assign(b"t"),
        ],
    },
    Routine {
        name: b"PutBoolean",
        params: &[ByVal(b"v", Boolean), ByRef(b"t", Boolean)],
        result: None,
        steps: &[
            Name(b"v"), Assign(b"t"),
        ],
    },
    Routine {
        name: b"PutByte",
        params: &[ByVal(b"v", Byte), ByRef(b"t", Byte)],
        result: None,
        steps: &[
            Name(b"v"), Assign(b"t"),
        ],
    },
    Routine {
        name: b"PutInteger",
        params: &[ByVal(b"v", Integer), ByRef(b"t", Integer)],
        result: None,
        steps: &[
            Name(b"v"), Assign(b"t"),
        ],
    },
    Routine {
        name: b"PutDecimal",
        params: &[ByVal(b"v", Decimal), ByRef(b"t", Decimal)],
        result: None,
        steps: &[
            Name(b"v"), Assign(b"t"),
        ],
    },
    Routine {
        name: b"PutString",
        params: &[ByVal(b"v", Str), ByRef(b"t", Str)],
        result: None,
        steps: &[
            Name(b"v"), Assign(b"t"),
        ],
    },
    Routine {
        name: b"PutObject",
        params: &[ByVal(b"v", Object), ByRef(b"t", Object)],
        result: None,
        steps: &[
            Name(b"v"), Assign(b"t"),
        ],
    },
];

/// The routines of assignments to what is passed by reference.
pub(crate) fn assignment_routines() -> &'static [Routine]
    ensures { map built result.now ≡ map Some assignment_functions }
{
    &ASSIGNMENT
}
