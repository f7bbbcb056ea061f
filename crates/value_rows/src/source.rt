//! Rows of Visual Basic 6. A Currency is in ten-thousandths.
use crate::rows::{Asked, RowFail, found, in_quotes, parts, quoted, units};
use std::alloc::{AllocError, Global};
use vb_tree::{BinOp, Op6, Type6, UnOp, Value6};
use vb6_meaning::{Op6Fail, coerce6, operate6};

const BINARY: [(&str, BinOp); 21] = [
    ("^", BinOp::Pow),
    ("*", BinOp::Mul),
    ("/", BinOp::Div),
    ("\\", BinOp::IntDiv),
    ("Mod", BinOp::Mod),
    ("+", BinOp::Add),
    ("-", BinOp::Sub),
    ("&", BinOp::Concat),
    ("=", BinOp::Equal),
    ("<>", BinOp::NotEqual),
    ("<", BinOp::Less),
    (">", BinOp::Greater),
    ("<=", BinOp::LessEqual),
    (">=", BinOp::GreaterEqual),
    ("Is", BinOp::Is),
    ("Like", BinOp::Like),
    ("And", BinOp::And),
    ("Or", BinOp::Or),
    ("Xor", BinOp::Xor),
    ("Eqv", BinOp::Eqv),
    ("Imp", BinOp::Imp),
];

const UNARY: [(&str, UnOp); 2] = [("-", UnOp::Neg), ("Not", UnOp::Not)];

/// The answer of a row, with operands in Variants or of their own types.
pub(crate) fn answer(alloc: Global, variant: bool, asked: Asked<'_>) -> Result<String, RowFail> {
    match computed(alloc, variant, asked)? {
        Ok(value) => Ok(shown(alloc, &value)?),
        Err(Op6Fail::Raise(number)) => Ok(format!(in alloc; "error {number}")?),
        Err(Op6Fail::Outside) => Ok(String::from_str(alloc, "outside")?),
        Err(Op6Fail::Mem) => Err(RowFail::Mem),
    }
}

fn computed(
    alloc: Global,
    variant: bool,
    asked: Asked<'_>,
) -> Result<Result<Value6, Op6Fail>, RowFail> {
    match asked {
        Asked::Unary(word, operand) => {
            let op = found(&UNARY, word)?;
            let op = if variant {
                Op6::VariantUn(op)
            } else {
                Op6::TypedUn(op)
            };
            let a = value(alloc, operand)?;
            Ok(operate6(alloc, op, &a, &Value6::Empty))
        }
        Asked::Binary(word, first, second) => {
            let op = found(&BINARY, word)?;
            let op = if variant {
                Op6::Variant(op)
            } else {
                Op6::Typed(op)
            };
            let a = value(alloc, first)?;
            let b = value(alloc, second)?;
            Ok(operate6(alloc, op, &a, &b))
        }
        Asked::Converted(from, word) => {
            let ty = type_of(word)?;
            let from = value(alloc, from)?;
            Ok(coerce6(alloc, &from, &ty))
        }
    }
}

fn type_of(word: &str) -> Result<Type6, RowFail> {
    match word {
        "Boolean" => Ok(Type6::Boolean),
        "Byte" => Ok(Type6::Byte),
        "Integer" => Ok(Type6::Integer),
        "Long" => Ok(Type6::Long),
        "Currency" => Ok(Type6::Currency),
        "String" => Ok(Type6::Str),
        "String*1" => Ok(Type6::Fixed(1)),
        "String*2" => Ok(Type6::Fixed(2)),
        "String*3" => Ok(Type6::Fixed(3)),
        "Type" => Ok(Type6::User(1)),
        "Class" => Ok(Type6::Class(1)),
        "Object" => Ok(Type6::Object),
        "Variant" => Ok(Type6::Variant),
        "Nothing" => Ok(Type6::Nothing),
        "Unknown" => Ok(Type6::Unknown),
        _ => Err(RowFail::NoRow),
    }
}

fn value(alloc: Global, word: &str) -> Result<Value6, RowFail> {
    if let Some(text) = quoted(word) {
        return Ok(Value6::Str(units(alloc, text)?));
    }
    match word {
        "True" => Ok(Value6::Boolean(true)),
        "False" => Ok(Value6::Boolean(false)),
        "Nothing" => Ok(Value6::Nothing),
        "Empty" => Ok(Value6::Empty),
        _ => number(word),
    }
}

fn number(word: &str) -> Result<Value6, RowFail> {
    let (ty, digits) = parts(word)?;
    let value = match ty {
        "Byte" => digits.parse::<u8>().ok().map(|n| Value6::Byte(n)),
        "Integer" => digits.parse::<i16>().ok().map(|n| Value6::Int(n)),
        "Long" => digits.parse::<i32>().ok().map(|n| Value6::Long(n)),
        "Currency" => digits.parse::<i64>().ok().map(|n| Value6::Cur(n)),
        "Object" => digits.parse::<u32>().ok().map(|n| Value6::Object(n)),
        _ => None,
    };
    value.ok_or(RowFail::NoRow)
}

fn shown(alloc: Global, value: &Value6) -> Result<String, AllocError> {
    match value {
        Value6::Boolean(true) => String::from_str(alloc, "True"),
        Value6::Boolean(false) => String::from_str(alloc, "False"),
        Value6::Byte(n) => format!(in alloc; "Byte:{}", *n),
        Value6::Int(n) => format!(in alloc; "Integer:{}", *n),
        Value6::Long(n) => format!(in alloc; "Long:{}", *n),
        Value6::Cur(n) => format!(in alloc; "Currency:{}", *n),
        Value6::Str(text) => in_quotes(alloc, text.as_slice()),
        Value6::Nothing => String::from_str(alloc, "Nothing"),
        Value6::Object(n) => format!(in alloc; "Object:{}", *n),
        Value6::Empty => String::from_str(alloc, "Empty"),
    }
}
