//! Laws of the definitions.
ghost use Rattle.std.specs.Prelude.{◌≡◌, ◌≤◌, ◌<◌, ℕ, ℤ, Bool};
ghost use Rattle.vb6_meaning.specs.Bits.{bit, bitwise};
ghost use Rattle.vb6_meaning.specs.Rounding.{rounded, IsNearestEven};

/// A law: a rounded quotient is the nearest whole number, and from halfway the even one.
pub fn nearest_even()
    ensures { (z : ℤ) (d : ℕ) → 0 < d → IsNearestEven z d (rounded z d) }
{}

/// A law: each of the 32 bits of an operator's answer is what it makes of the operands' bits.
pub fn bit_by_bit()
    ensures { (f : Bool → Bool → Bool) (x y : ℤ) (k : ℕ) → k ≤ 31 → bit (bitwise f x y) k ≡ f (bit x k) (bit y k) }
{}
