//! Sets of support functions.
ghost use Rattle.std.specs.Prelude.{◌≡◌, [], ◌∷◌};
ghost use Rattle.support_text.specs.Noting.{none_used, has, with_name, noted, with_called};

use crate::SupportRow;
use up_base::Name;

/// The functions that were met.
#[derive(Clone, Copy)]
pub(crate) struct Used {
    pub(crate) print_line: bool,
    pub(crate) print_part: bool,
    pub(crate) cur_text: bool,
    pub(crate) print_num: bool,
    pub(crate) cur: bool,
    pub(crate) raise: bool,
}

impl Used {
    /// None of them.
    pub(crate) fn none() -> Used
        ensures { result ≡ none_used }
    {
        Used {
            print_line: false,
            print_part: false,
            cur_text: false,
            print_num: false,
            cur: false,
            raise: false,
        }
    }

    /// Whether a function was met.
    pub(crate) fn has(self, row: SupportRow) -> bool
        ensures { result ≡ has self row }
    {
        match row {
            SupportRow::PrintLine => self.print_line,
            SupportRow::PrintPart => self.print_part,
            SupportRow::CurText => self.cur_text,
            SupportRow::PrintNum => self.print_num,
            SupportRow::Cur => self.cur,
            SupportRow::Raise => self.raise,
        }
    }

    // With the function of a name, where there is one.
    fn with_name(self, name: &[u8]) -> Used
        ensures { result ≡ with_name self name.now }
    {
        Used {
            print_line: name == b"PrintLine".as_slice() || self.print_line,
            print_part: name == b"PrintPart".as_slice() || self.print_part,
            cur_text: name == b"CurText".as_slice() || self.cur_text,
            print_num: name == b"PrintNum".as_slice() || self.print_num,
            cur: name == b"Cur".as_slice() || self.cur,
            raise: name == b"Raise".as_slice() || self.raise,
        }
    }

    /// With the function that a path names, where it names one.
    pub(crate) fn noted(self, path: &[Name]) -> Used
        ensures { result ≡ noted self path.now }
    {
        match path {
            [outer, name] => self.with_member(outer.as_bytes(), name.as_bytes()),
            _ => self,
        }
    }

    // With the function of a name in a module, where that is the one of support functions.
    fn with_member(self, outer: &[u8], name: &[u8]) -> Used
        ensures { result ≡ noted self (outer.now ∷ name.now ∷ []) }
    {
        if outer == b"UpgradeSupport".as_slice() {
            self.with_name(name)
        } else {
            self
        }
    }

    /// With the functions that these call.
    pub(crate) fn with_called(mut self) -> Used
        ensures { result ≡ with_called self }
    {
        self.cur_text = self.cur_text || self.print_num;
        self.raise = self.cur || self.raise;
        self
    }
}
