//! Numbers: their kinds and amounts, and how they go from one kind to another.
ghost use Rattle.std.specs.Prelude.{◌≡◌, ◌≤◌, ◌*◌, ◌^◌, IsTrue, unsigned_abs};
ghost use Rattle.vb6_meaning.specs.Kinds.{rank, is_byte, wider, whole, least, fits, value, ones, ten_thousandths};

use crate::rounding::rounded;
use vb_tree::Value6;

/// The kinds of numbers, each wider than those before it.
#[derive(Clone, Copy, Debug, PartialEq, Eq)]
pub enum NumberKind {
    /// From 0 to 255.
    Byte,
    /// 16 bits with a sign.
    Integer,
    /// 32 bits with a sign.
    Long,
    /// Ten-thousandths in 64 bits with a sign.
    Currency,
}

impl NumberKind {
    fn rank(self) -> u8
        ensures { result ≡ rank self }
    {
        match self {
            NumberKind::Byte => 0,
            NumberKind::Integer => 1,
            NumberKind::Long => 2,
            NumberKind::Currency => 3,
        }
    }

    pub(crate) fn wider(self, other: NumberKind) -> NumberKind
        ensures { result ≡ wider self other }
    {
        if self.rank() < other.rank() {
            other
        } else {
            self
        }
    }

    /// The kind as which operators on whole numbers take a number of this one.
    pub(crate) fn whole(self) -> NumberKind
        ensures { result ≡ whole self }
    {
        match self {
            NumberKind::Byte => NumberKind::Byte,
            NumberKind::Integer => NumberKind::Integer,
            NumberKind::Long | NumberKind::Currency => NumberKind::Long,
        }
    }

    pub(crate) fn least(self) -> i128
        ensures { result ≡ least self }
    {
        match self {
            NumberKind::Byte => 0,
            NumberKind::Integer => -32_768,
            NumberKind::Long => -2_147_483_648,
            NumberKind::Currency => -9_223_372_036_854_775_808,
        }
    }

    pub(crate) fn is_byte(self) -> bool
        ensures { result ≡ is_byte self }
    {
        matches!(self, NumberKind::Byte)
    }

    pub(crate) fn fits(self, amount: i128) -> bool
        ensures { result ≡ fits self amount }
    {
        match self {
            NumberKind::Byte => 0 <= amount && amount <= 255,
            NumberKind::Integer => -32_768 <= amount && amount <= 32_767,
            NumberKind::Long => -2_147_483_648 <= amount && amount <= 2_147_483_647,
            NumberKind::Currency => {
                -9_223_372_036_854_775_808 <= amount && amount <= 9_223_372_036_854_775_807
            }
        }
    }

    pub(crate) fn value(self, amount: i128) -> Value6
        requires { IsTrue (fits self amount) }
        ensures { result ≡ value self amount }
    {
        match self {
            NumberKind::Byte => Value6::Byte(amount as u8),
            NumberKind::Integer => Value6::Int(amount as i16),
            NumberKind::Long => Value6::Long(amount as i32),
            NumberKind::Currency => Value6::Cur(amount as i64),
        }
    }
}

/// A number: its kind and its amount, in ones, or in ten-thousandths where it is a Currency.
#[derive(Clone, Copy, Debug)]
pub struct Number {
    pub kind: NumberKind,
    pub amount: i64,
}

impl Number {
    ghost use Rattle.vb6_meaning.specs.Numbers.{amount_in};

    fn ones(self) -> i64
        ensures { result ≡ ones self.kind self.amount }
    {
        match self.kind {
            NumberKind::Byte | NumberKind::Integer | NumberKind::Long => self.amount,
            NumberKind::Currency => rounded(self.amount),
        }
    }

    fn ten_thousandths(self) -> i128
        ensures exact { result ≡ ten_thousandths self.kind self.amount }
        ensures bounded { unsigned_abs result ≤ 10000 * 2 ^ 63 }
    {
        let amount = i128::from(self.amount);
        match self.kind {
            NumberKind::Byte | NumberKind::Integer | NumberKind::Long => 10_000 * amount,
            NumberKind::Currency => amount,
        }
    }

    /// The amount in the unit of another kind, which may pass that kind's limits.
    pub(crate) fn amount_in(self, kind: NumberKind) -> i128
        ensures exact { result ≡ amount_in kind self }
        ensures bounded { unsigned_abs result ≤ 10000 * 2 ^ 63 }
    {
        match kind {
            NumberKind::Byte | NumberKind::Integer | NumberKind::Long => i128::from(self.ones()),
            NumberKind::Currency => self.ten_thousandths(),
        }
    }
}
