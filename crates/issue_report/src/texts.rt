//! What is said of each fault and of each rule. No look-up takes memory.
ghost use Rattle.std.specs.Prelude.{◌≡◌, ◌≤◌, IfSome, length};
ghost use Rattle.std.specs.Option.{option_copied};
ghost use Rattle.issue_report.specs.Texts.{fault_text, rule_text};

use up_base::faults;

/// The text of a fault, and none where no fault has this number. The faults have the numbers 1 to 15.
pub fn fault_text(kind: u8) -> Option<&'static [u8]>
    ensures text { option_copied result ≡ fault_text kind }
    ensures short { IfSome result (λ text. length text.now ≤ 34) }
{
    let text: &'static [u8] = match kind {
        faults::NO_PROJECT => b"project file not found",
        faults::NO_MODULE => b"module file not found",
        faults::TOO_LONG => b"size limit passed",
        faults::MALFORMED_ENTRY => b"project line not of its form",
        faults::NAME_USED => b"module name used twice or reserved",
        faults::NO_CHARACTER => b"byte without a character",
        faults::MISPLACED_CONTINUATION => b"continuation not allowed here",
        faults::OPEN_LITERAL => b"literal not closed",
        faults::NO_TOKEN => b"character that begins no token",
        faults::NO_FORM => b"no line form fits",
        faults::NOT_OPEN => b"closing line without its opener",
        faults::NEVER_CLOSED => b"opening line never closed",
        faults::DIRECTIVE => b"directive",
        faults::TOO_DEEP => b"nesting deeper than 64",
        faults::MALFORMED_HEAD => b"class head not of its form",
        _ => return None,
    };
    Some(text)
}

/// The text of a rule, and none where no rule has this number. The rules have the numbers 1 to 26.
pub fn rule_text(rule: u8) -> Option<&'static [u8]>
    ensures { option_copied result ≡ rule_text rule }
{
    let text: &'static [u8] = match rule {
        1 => b"floating or date type or literal",
        2 => b"operator not translated",
        3 => b"name not declared",
        4 => b"statement not translated",
        5 => b"Variant value not translated",
        6 => b"member not known before the run",
        7 => b"property shape",
        8 => b"reference argument does not fit",
        9 => b"array bounds not constant or not one",
        10 => b"element may be locked",
        11 => b"array or type form not translated",
        12 => b"fixed string static, in an array or by reference",
        13 => b"Class_Terminate has no fixed time",
        14 => b"block head may raise in a resumable procedure",
        15 => b"jump not allowed",
        16 => b"member name reserved",
        17 => b"Option Compare Text",
        18 => b"argument form not translated",
        19 => b"Err member not translated",
        20 => b"name declared twice or ambiguous",
        21 => b"conversion not translated",
        22 => b"operand type not translated",
        23 => b"project line not carried over",
        24 => b"As New in an array, by reference or in With",
        25 => b"constant out of range",
        26 => b"order of effects",
        _ => return None,
    };
    Some(text)
}
