//! Digits and the numbers that they stand for.
ghost use Rattle.std.specs.Char.{digit_value};
ghost use Rattle.std.specs.Prelude.{◌≡◌, ℕ, ◌+◌, ◌*◌, ◌<◌, ◌≤◌, ◌^◌, MatchOption};
ghost use Rattle.net_exprs.specs.Names.{numeral_from};

// What a character counts as a digit of a base.
fn digit(base: u32, c: u8) -> Option<u32>
    requires low { 2 ≤ base }
    requires high { base ≤ 36 }
    ensures { MatchOption result (base ≤ digit_value c) (λ d. (d ≡ digit_value c) × (d < base)) }
{
    char::from(c).to_digit(base)
}

// A number with one more digit, where it is below 2 to the 128th.
fn with_digit(n: u128, base: u32, digit: u32) -> Option<u128>
    ensures { MatchOption result (2 ^ 128 ≤ n * base + digit) (λ m. m ≡ n * base + digit) }
{
    n.checked_mul(u128::from(base))?
        .checked_add(u128::from(digit))
}

/// The number that the digits at the front stand for, and what follows them; none where it isn't below 2 to the 128th.
pub(crate) fn numeral(base: u32, text: &[u8]) -> Option<(u128, &[u8])>
    requires low { 2 ≤ base }
    requires high { base ≤ 36 }
    ensures { MatchOption result (2 ^ 128 ≤ (numeral_from base 0 text.now).0) (λ r. (r.0 ≡ (numeral_from base 0 text.now).0) × (r.1.now ≡ (numeral_from base 0 text.now).1)) }
{
    let mut n: u128 = 0;
    let mut rest = text;
    'digits: while let [c, more @ ..] = rest {
        let Some(digit) = digit(base, *c) else {
            return Some((n, rest));
        };
        n = with_digit(n, base, digit)?;
        rest = more;
    }
    Some((n, rest))
}
