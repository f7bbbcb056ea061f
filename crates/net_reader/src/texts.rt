//! Texts of comments.
ghost use Rattle.std.specs.Prelude.{◌≡◌, true, IfOk};
ghost use Rattle.net_reader.specs.Answers.{AnswersWhole};
ghost use Rattle.net_reader.specs.FileLines.{units_in};
ghost use Rattle.net_reader.specs.Fits.{fits_text};

use net_exprs::PhraseFail;
use std::alloc::Global;
use up_base::Wide;

/// The UTF-16 units of a text in UTF-8. It fails with `NotNet` where it isn't one.
pub(crate) fn units(alloc: Global, text: &[u8]) -> Result<Wide, PhraseFail>
    ensures answers { AnswersWhole (λ units. units) fits_text (units_in text.now) result }
    ensures held { IfOk result (λ units. fits_text units ≡ true) }
{
    let Ok(text) = str::from_utf8(text) else {
        return Err(PhraseFail::NotNet);
    };
    Ok(Wide::from_vec(text.encode_utf16().collect(alloc)?))
}
