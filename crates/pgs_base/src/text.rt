ghost use Rattle.std.specs.Prelude.{◌≡◌, ◌≤◌, length, IfOk, if◌then◌else◌, nat_eq, nat_le, refl, Some, None, true};
ghost use Rattle.std.specs.Ordering.{nat_cmp};
ghost use Rattle.std.specs.Cmp.Lexicographic.{pointwise, slice_cmp, nat_list_eq_equiv, nat_list_cmp_total, texts_po, texts_ties};
ghost use Rattle.std.specs.Cmp.{partial_equiv_from_equiv};
ghost use Rattle.pgs_base.specs.Value.{is_text};

use crate::{Copyable, Memory};
use std::alloc::Global;
use std::cmp::Ordering;
use std::marker::Model;
use std::rc::RcStr;

/// A text of at most 65,535 bytes of UTF-8. Copies share their bytes. Texts go by their bytes.
#[derive(Debug)]
pub struct Text {
    text: RcStr,
}

impl Model for Text {
    ghost use Rattle.std.specs.Prelude.{List, ℕ, ◌≤◌, length};
    ghost use Rattle.std.specs.Coded.{coded_list, coded_ℕ};
    ghost use Rattle.std.specs.Rc.{rc_str_bytes};

    ghost Value = { List ℕ };

    ghost coded = { coded_list coded_ℕ };

    ghost view = { λ text. rc_str_bytes text.text };

    ghost invariant = { λ text. length (rc_str_bytes text.text) ≤ 65535 };
}

// Dropped here, so that crates above need not prove what it holds.
impl Drop for Text {
    fn drop(self) {
        let Text { text: _ } = self;
    }
}

impl Text {
    /// The most bytes of a text.
    pub const LONGEST: usize = 65_535;

    /// The text of these characters. `None` exactly where they have over 65,535 bytes.
    pub fn new(alloc: Global, text: &str) -> Result<Option<Text>, Memory>
        ensures { IfOk result
            (λ made. made ≡ (if nat_le (length text.now) 65535 then Some text.now else None)) }
    {
        if text.len() <= Text::LONGEST {
            let text = RcStr::from_str(alloc, text)?;
            Ok(Some(Text { text }))
        } else {
            Ok(None)
        }
    }

    /// The characters of the text.
    #[tactic(auto, using(crate::proofs::Texts::text_from))]
    pub fn text(&self) -> &str
        ensures text { result.now ≡ self.now }
        ensures short { length self.now ≤ 65535 }
        ensures valid { is_text self.now ≡ true }
    {
        let text = self.text.as_str();
        let _bytes = text.as_bytes();
        text
    }

    /// The same text, over the same bytes: it is handed no allocator, so it can't copy them. `Memory` only where the
    /// count of owners is at its limit.
    pub fn share(&self) -> Result<Text, Memory>
        ensures { IfOk result (λ shared. shared ≡ self.now) }
    {
        let text = self.text.clone()?;
        Ok(Text { text })
    }
}

impl Copyable for Text {
    fn copy(&self, _alloc: Global) -> Result<Text, Memory> {
        self.share()
    }
}

impl PartialEq for Text {
    ghost eq = { pointwise nat_eq };

    ghost laws = { partial_equiv_from_equiv nat_list_eq_equiv };

    fn eq(&self, other: &Text) -> bool {
        self.text() == other.text()
    }
}

impl Eq for Text {
    ghost laws = { nat_list_eq_equiv };
}

impl PartialOrd for Text {
    ghost partial_cmp = { λ a b. Some (slice_cmp nat_cmp a b) };

    ghost laws = { texts_po };

    fn partial_cmp(&self, other: &Text) -> Option<Ordering> {
        Some(self.cmp(other))
    }
}

impl Ord for Text {
    ghost cmp = { slice_cmp nat_cmp };

    ghost total = { nat_list_cmp_total };

    ghost matches_partial_cmp = { λ a b. refl };

    ghost matches_eq = { texts_ties };

    fn cmp(&self, other: &Text) -> Ordering {
        self.text().cmp(other.text())
    }
}
