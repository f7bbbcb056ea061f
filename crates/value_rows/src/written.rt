//! Rows of Visual Basic .NET. A Decimal is written as its mantissa and its scale, as `Decimal:25e-1` for 2.5.
use crate::rows::{Asked, RowFail, found, in_quotes, parts, quoted, units};
use net_meaning::{OpNFail, ValueN, coerce_net, operate_net};
use net_tree::{NetBin, NetType, NetUn, OpN, Path};
use std::alloc::{AllocError, Global};

const BINARY: [(&str, NetBin); 16] = [
    ("*", NetBin::Mul),
    ("\\", NetBin::IntDiv),
    ("Mod", NetBin::Mod),
    ("+", NetBin::Add),
    ("-", NetBin::Sub),
    ("&", NetBin::Concat),
    ("=", NetBin::Equal),
    ("<>", NetBin::NotEqual),
    ("<", NetBin::Less),
    (">", NetBin::Greater),
    ("<=", NetBin::LessEqual),
    (">=", NetBin::GreaterEqual),
    ("Is", NetBin::Is),
    ("And", NetBin::And),
    ("Or", NetBin::Or),
    ("Xor", NetBin::Xor),
];

const UNARY: [(&str, NetUn); 2] = [("-", NetUn::Neg), ("Not", NetUn::Not)];

/// The answer of a row.
pub(crate) fn answer(alloc: Global, asked: Asked<'_>) -> Result<String, RowFail> {
    match computed(alloc, asked)? {
        Ok(value) => Ok(shown(alloc, &value)?),
        Err(OpNFail::Raise(number)) => Ok(format!(in alloc; "error {number}")?),
        Err(OpNFail::Outside) => Ok(String::from_str(alloc, "outside")?),
        Err(OpNFail::Mem) => Err(RowFail::Mem),
    }
}

fn computed(alloc: Global, asked: Asked<'_>) -> Result<Result<ValueN, OpNFail>, RowFail> {
    match asked {
        Asked::Unary(word, operand) => {
            let op = OpN::Un(found(&UNARY, word)?);
            let a = value(alloc, operand)?;
            Ok(operate_net(alloc, op, &a, &ValueN::Nothing))
        }
        Asked::Binary(word, first, second) => {
            let op = OpN::Bin(found(&BINARY, word)?);
            let a = value(alloc, first)?;
            let b = value(alloc, second)?;
            Ok(operate_net(alloc, op, &a, &b))
        }
        Asked::Converted(from, word) => {
            let ty = type_of(alloc, word)?;
            let from = value(alloc, from)?;
            Ok(coerce_net(alloc, &from, &ty))
        }
    }
}

fn type_of(alloc: Global, word: &str) -> Result<NetType, RowFail> {
    match word {
        "Boolean" => Ok(NetType::Boolean),
        "Byte" => Ok(NetType::Byte),
        "Short" => Ok(NetType::Short),
        "Integer" => Ok(NetType::Integer),
        "Long" => Ok(NetType::Long),
        "Decimal" => Ok(NetType::Decimal),
        "String" => Ok(NetType::Str),
        "Object" => Ok(NetType::Object),
        "System.Array" => Ok(NetType::SystemArray),
        "Class" => Ok(NetType::Named(Path::new(alloc))),
        _ => Err(RowFail::NoRow),
    }
}

fn value(alloc: Global, word: &str) -> Result<ValueN, RowFail> {
    if let Some(text) = quoted(word) {
        return Ok(ValueN::Str(units(alloc, text)?));
    }
    match word {
        "True" => Ok(ValueN::Boolean(true)),
        "False" => Ok(ValueN::Boolean(false)),
        "Nothing" => Ok(ValueN::Nothing),
        _ => number(word),
    }
}

fn number(word: &str) -> Result<ValueN, RowFail> {
    let (ty, digits) = parts(word)?;
    let value = match ty {
        "Byte" => digits.parse::<u8>().ok().map(|n| ValueN::Byte(n)),
        "Short" => digits.parse::<i16>().ok().map(|n| ValueN::Short(n)),
        "Integer" => digits.parse::<i32>().ok().map(|n| ValueN::Integer(n)),
        "Long" => digits.parse::<i64>().ok().map(|n| ValueN::Long(n)),
        "Decimal" => decimal(digits),
        "Object" => digits.parse::<u32>().ok().map(|n| ValueN::Object(n)),
        "Array" => digits.parse::<u32>().ok().map(|n| ValueN::Array(n)),
        _ => None,
    };
    value.ok_or(RowFail::NoRow)
}

fn decimal(digits: &str) -> Option<ValueN> {
    let (mantissa, scale) = digits.split_once("e-")?;
    let mantissa = mantissa.parse::<i128>().ok()?;
    let scale = scale.parse::<u8>().ok()?;
    Some(ValueN::Decimal(mantissa, scale))
}

fn shown(alloc: Global, value: &ValueN) -> Result<String, AllocError> {
    match value {
        ValueN::Boolean(true) => String::from_str(alloc, "True"),
        ValueN::Boolean(false) => String::from_str(alloc, "False"),
        ValueN::Byte(n) => format!(in alloc; "Byte:{}", *n),
        ValueN::Short(n) => format!(in alloc; "Short:{}", *n),
        ValueN::Integer(n) => format!(in alloc; "Integer:{}", *n),
        ValueN::Long(n) => format!(in alloc; "Long:{}", *n),
        ValueN::Decimal(n, scale) => format!(in alloc; "Decimal:{}e-{}", *n, *scale),
        ValueN::Str(text) => in_quotes(alloc, text.as_slice()),
        ValueN::Nothing => String::from_str(alloc, "Nothing"),
        ValueN::Object(n) => format!(in alloc; "Object:{}", *n),
        ValueN::Array(n) => format!(in alloc; "Array:{}", *n),
    }
}
