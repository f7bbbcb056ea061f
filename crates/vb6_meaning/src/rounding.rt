//! Ten-thousandths as whole numbers, half to even.
ghost use Rattle.std.specs.Prelude.{◌≡◌};
ghost use Rattle.vb6_meaning.specs.Rounding.{half_even, rounded};

fn half_even(amount: u64) -> u64
    ensures { result ≡ half_even amount 10000 }
{
    let below = amount / 10_000;
    match amount % 10_000 {
        0..5_000 => below,
        5_000 => below + below % 2,
        _ => below + 1,
    }
}

/// The whole number nearest to an amount of ten-thousandths; of two as near it is the even one.
pub(crate) fn rounded(amount: i64) -> i64
    ensures { result ≡ rounded amount 10000 }
{
    let rounded = half_even(amount.unsigned_abs()) as i64;
    if amount < 0 { -rounded } else { rounded }
}
