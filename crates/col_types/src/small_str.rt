// A shared text.
ghost use Rattle.std.specs.Prelude.{◌≡◌, Ok, nat_eq};
ghost use Rattle.std.specs.Rc.{rc_str_bytes};
ghost use Rattle.std.specs.Cmp.{partial_equiv_from_equiv};
ghost use Rattle.std.specs.Cmp.Lexicographic.{pointwise, nat_list_eq_equiv};
ghost use Rattle.col_types.specs.PolarsError.{Gives};

use crate::PolarsResult;
use std::alloc::{AllocError, Global};
use std::fmt;
use std::marker::Model;
use std::rc::RcStr;

/// A text that its clones share. A contract sees it as its bytes.
#[derive(Drop)]
pub struct PlSmallStr {
    text: RcStr,
}

impl Model for PlSmallStr {
    ghost use Rattle.std.specs.Prelude.{List, ℕ};

    ghost Value = { List ℕ };

    ghost use Rattle.std.specs.Rc.{rc_str_bytes};

    ghost view = { λ s. rc_str_bytes s.text };
}

impl PlSmallStr {
    /// A copy of the text. The one refusal is `NoMemory`.
    pub fn from_str(alloc: Global, text: &str) -> PolarsResult<PlSmallStr>
        ensures text { Gives result (Ok text.now) }
    {
        let text = RcStr::from_str(alloc, text)?;
        Ok(PlSmallStr { text })
    }

    /// The text.
    pub fn as_str(&self) -> &str
        ensures text { result.now ≡ self.now }
    {
        self.text.as_str()
    }

    // The shared text itself.
    pub(crate) fn into_text(self) -> RcStr
        ensures text { rc_str_bytes result ≡ self }
    {
        self.text
    }
}

impl Clone for PlSmallStr {
    ghost is_clone = { λ s copy. copy ≡ s };

    fn clone(&self) -> Result<PlSmallStr, AllocError> {
        let text = self.text.clone()?;
        Ok(PlSmallStr { text })
    }
}

impl PartialEq for PlSmallStr {
    ghost eq = { pointwise nat_eq };

    ghost laws = { partial_equiv_from_equiv nat_list_eq_equiv };

    fn eq(&self, other: &PlSmallStr) -> bool {
        self.as_str() == other.as_str()
    }
}

impl Eq for PlSmallStr {
    ghost laws = { nat_list_eq_equiv };
}

impl fmt::Debug for PlSmallStr {
    fn fmt<W: fmt::Write>(&self, f: &mut fmt::Formatter<W>) -> fmt::Result {
        fmt::Debug::fmt(self.as_str(), f)
    }
}
