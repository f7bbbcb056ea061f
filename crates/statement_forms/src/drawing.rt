//! Members that draw.
ghost use Rattle.std.specs.Prelude.{◌≡◌, ◌&&◌, MatchOption};
ghost use Rattle.statement_forms.specs.Fronts.{draws};
ghost use Rattle.statement_forms.specs.LineForms.{IsDrawn, NotDrawn};

use crate::fronts::is_dot;
use crate::kept::draws;
use vb_tree::Token;

// Whether a token is a member that draws, behind a full stop.
fn is_drawn(behind_dot: bool, token: &Token) -> bool
    ensures { result ≡ (behind_dot && draws token.now) }
{
    behind_dot && draws(token)
}

/// The length of the shortest front that ends in a member that draws, behind a full stop.
pub fn drawn_length(tokens: &[Token]) -> Option<usize>
    ensures { MatchOption result (NotDrawn tokens.now) (λ len. IsDrawn tokens.now len) }
{
    let mut behind_dot = false;
    for (at, token) in tokens.iter().enumerate() {
        if is_drawn(behind_dot, token) {
            return Some(at + 1);
        }
        behind_dot = is_dot(token);
    }
    None
}
