//! Which texts a comment can hold.
ghost use Rattle.std.specs.Prelude.{◌≡◌, ◌||◌, not, cond};
ghost use Rattle.std.specs.List.{list_all};
ghost use Rattle.std.specs.Char.Utf16.{is_high_surrogate, is_low_surrogate};
ghost use Rattle.net_tree.specs.Comments.{is_comment, is_well_formed, is_within_line};

// Whether a unit is the first of a pair of surrogates.
fn is_high_surrogate(unit: u16) -> bool
    ensures { result ≡ is_high_surrogate unit }
{
    0xD800 <= unit && unit < 0xDC00
}

// Whether a unit is the second of a pair of surrogates.
fn is_low_surrogate(unit: u16) -> bool
    ensures { result ≡ is_low_surrogate unit }
{
    0xDC00 <= unit && unit < 0xE000
}

// Whether a unit may stand where a pair of surrogates was begun, or was not.
fn may_follow(begun: bool, unit: u16) -> bool
    ensures { result ≡ cond begun (is_low_surrogate unit) (is_high_surrogate unit || not (is_low_surrogate unit)) }
{
    if begun {
        is_low_surrogate(unit)
    } else {
        is_high_surrogate(unit) || !is_low_surrogate(unit)
    }
}

// Whether each surrogate is one of a pair.
#[tactic(auto, using(crate::proofs::Pairs::none_begun))]
fn is_well_formed(units: &[u16]) -> bool
    ensures { result ≡ is_well_formed units.now }
{
    let mut begun = false;
    for unit in units {
        if !may_follow(begun, *unit) {
            return false;
        }
        begun = !begun && is_high_surrogate(*unit);
    }
    !begun
}

fn is_one_line(units: &[u16]) -> bool
    ensures { result ≡ list_all is_within_line units.now }
{
    units.iter().all(|u| *u != 10 && *u != 13)
}

/// Whether a comment can hold these UTF-16 units: no line end, and no surrogate without its other.
pub fn is_comment(units: &[u16]) -> bool
    ensures { result ≡ is_comment units.now }
{
    is_one_line(units) && is_well_formed(units)
}
