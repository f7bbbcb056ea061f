//! Which literals can be written.
ghost use Rattle.std.specs.Prelude.{◌≡◌};
ghost use Rattle.std.specs.List.{list_all};
ghost use Rattle.up_base.specs.Names.{is_printable};
ghost use Rattle.net_tree.specs.Literals.{is_writable_literal};
ghost use Rattle.net_tree.specs.View.{literal_of};

use net_tree::NetLit;

fn are_printable(units: &[u16]) -> bool
    ensures { result ≡ list_all is_printable units.now }
{
    units.iter().all(|u| 32 <= *u && *u <= 126)
}

/// Whether a literal can be written.
pub(crate) fn is_writable_literal(literal: &NetLit) -> bool
    ensures { result ≡ is_writable_literal (literal_of literal.now) }
{
    match literal {
        NetLit::Boolean(_) => true,
        NetLit::Short(value, hexadecimal) => *hexadecimal || *value >= 0,
        NetLit::Integer(value, hexadecimal) => *hexadecimal || *value >= 0,
        NetLit::Long(value) => *value >= 0,
        NetLit::Decimal(value) => *value >= 0,
        NetLit::Str(units) => are_printable(units.as_slice()),
    }
}
