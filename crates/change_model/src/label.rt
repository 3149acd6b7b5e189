//! A borrowed label as the key of a hashed map.
ghost use Rattle.std.specs.Prelude.{◌≡◌, nat_eq};
ghost use Rattle.std.specs.Cmp.{partial_equiv_from_equiv};
ghost use Rattle.std.specs.Cmp.Lexicographic.{pointwise, nat_list_eq_equiv};
ghost use Rattle.change_model.specs.TermKeys.{same_label-writes};
ghost use Rattle.std.specs.Hash as fed;

use std::hash::{Hash, Hasher};
use std::marker::Model;

/// The label of a term. Labels are equal where their bytes are.
#[derive(Drop)]
pub(crate) struct Label<'a> {
    text: &'a str,
}

impl<'a> Model for Label<'a> {
    ghost use Rattle.std.specs.Prelude.{List, ℕ};

    ghost Value = { List ℕ };

    ghost view = { λ label. label.text.now };
}

impl<'a> Label<'a> {
    pub(crate) fn of(text: &'a str) -> Label<'a>
        ensures { result ≡ text.now }
    {
        Label { text }
    }

    fn text(&self) -> &str
        ensures { result.now ≡ self.now }
    {
        self.text
    }
}

impl PartialEq for Label<'_> {
    ghost eq = { pointwise nat_eq };

    ghost laws = { partial_equiv_from_equiv nat_list_eq_equiv };

    fn eq(&self, other: &Label<'_>) -> bool {
        self.text() == other.text()
    }
}

impl Eq for Label<'_> {
    ghost laws = { nat_list_eq_equiv };
}

impl Hash for Label<'_> {
    ghost hash_input = { fed.str };

    ghost respects_eq = { same_label-writes };

    fn hash<H: Hasher>(&self, state: &mut H) {
        self.text().hash(state);
    }
}
