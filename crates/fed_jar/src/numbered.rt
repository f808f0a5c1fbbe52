//! A cookie with the number of its first storing.
ghost use Rattle.std.specs.Prelude.{◌≡◌, ◌++◌, IfOk};
ghost use Rattle.std.proofs.Common.{rules};
ghost use Rattle.std.specs.Hash as fed;
ghost use Rattle.std.specs.Cmp.{and_equiv, on_equiv, partial_equiv_from_equiv};
ghost use Rattle.std.specs.Cmp.Lexicographic.{nat_list_eq_equiv};
ghost use Rattle.std.specs.Cmp.Rules.{hashing};
ghost use Rattle.fed_jar.specs.Parts.{same_numbered};

use crate::PackedCookie;
use std::hash::{Hash, Hasher};

/// A cookie of a jar, and how many new keys had entered the jar before it. Two are equal where their
/// cookies have the same name, domain and path.
#[derive(Drop)]
pub struct Numbered {
    pub cookie: PackedCookie,
    pub number: u64,
}

impl PartialEq for Numbered {
    ghost eq = { same_numbered };

    ghost laws = { partial_equiv_from_equiv (and_equiv (on_equiv (λ n. n.cookie.name) nat_list_eq_equiv)
        (and_equiv (on_equiv (λ n. n.cookie.domain) nat_list_eq_equiv) (on_equiv (λ n. n.cookie.path) nat_list_eq_equiv))) };

    fn eq(&self, other: &Numbered) -> bool {
        self.cookie.name() == other.cookie.name()
            && (self.cookie.domain() == other.cookie.domain()
                && self.cookie.path() == other.cookie.path())
    }
}

impl Eq for Numbered {
    ghost laws = { and_equiv (on_equiv (λ n. n.cookie.name) nat_list_eq_equiv)
        (and_equiv (on_equiv (λ n. n.cookie.domain) nat_list_eq_equiv) (on_equiv (λ n. n.cookie.path) nat_list_eq_equiv)) };
}

impl Hash for Numbered {
    ghost hash_input = { λ n. fed.slice fed.u8 n.cookie.name ++ fed.slice fed.u8 n.cookie.domain ++ fed.slice fed.u8 n.cookie.path };

    ghost respects_eq = { Prim.search (hashing, rules) };

    fn hash<H: Hasher>(&self, state: &mut H) {
        self.cookie.name().hash(state);
        self.cookie.domain().hash(state);
        self.cookie.path().hash(state);
    }
}

/// A cookie that a jar lends.
#[derive(Clone, Copy)]
pub struct Lent<'a> {
    pub one: &'a Numbered,
}
