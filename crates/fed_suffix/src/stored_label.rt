//! A label as the tree of rules keeps it.
ghost use Rattle.std.specs.Prelude.{◌≡◌, ◌≤◌, length, IfOk, bytes_eq};
ghost use Rattle.std.proofs.Common.{ap, rules};
ghost use Rattle.std.specs.Hash as fed;
ghost use Rattle.std.specs.Cmp.{partial_equiv_from_equiv};
ghost use Rattle.std.specs.Cmp.Lexicographic.{bytes_decides, nat_list_eq_equiv};
ghost use Rattle.std.specs.Cmp.Rules.{hashing};

use fed_io::NoRoom;
use indexmap::Equivalent;
use std::alloc::Global;
use std::hash::{Hash, Hasher};
use std::marker::Model;

// So many bytes stand in the label itself: few labels have more, and a piece of memory for each
// would take twice as many.
const SHORT: usize = 14;

// Where the bytes of a label stand.
#[derive(Drop)]
enum Place {
    Here { len: u8, bytes: [u8; SHORT] },
    There(Box<Vec<u8>>),
}

/// A label, which contracts see as its bytes.
#[derive(Drop)]
pub struct Label {
    place: Place,
}

impl Model for Label {
    ghost use Rattle.std.specs.Prelude.{List, ℕ};

    ghost Value = { List ℕ };

    ghost use Rattle.fed_suffix.specs.StoredLabel.{bytes_at, FitsHere};

    ghost view = { λ l. bytes_at l.place };

    ghost invariant = { λ l. FitsHere l.place };
}

impl Label {
    /// A copy of these bytes.
    pub fn of(alloc: Global, bytes: &[u8]) -> Result<Label, NoRoom>
        ensures { IfOk result (λ label. label ≡ bytes.now) }
    {
        if bytes.len() <= SHORT {
            return Ok(Label::short(bytes));
        }
        Ok(Label {
            place: Place::There(Box::new(alloc, bytes.to_vec(alloc)?)?),
        })
    }

    fn short(bytes: &[u8]) -> Label
        requires { length bytes.now ≤ 14 }
        ensures { result ≡ bytes.now }
    {
        let mut here = [0; SHORT];
        here[..bytes.len()].copy_from_slice(bytes);
        Label {
            place: Place::Here {
                len: bytes.len() as u8,
                bytes: here,
            },
        }
    }

    /// The bytes.
    pub fn as_slice(&self) -> &[u8]
        ensures { result.now ≡ self.now }
    {
        match &self.place {
            Place::Here { len, bytes } => &bytes[..*len as usize],
            Place::There(bytes) => bytes.as_slice(),
        }
    }
}

impl PartialEq for Label {
    ghost eq = { bytes_eq };

    ghost laws = { partial_equiv_from_equiv nat_list_eq_equiv };

    fn eq(&self, other: &Label) -> bool {
        self.as_slice() == other.as_slice()
    }
}

impl Eq for Label {
    ghost laws = { nat_list_eq_equiv };
}

impl Hash for Label {
    ghost hash_input = { fed.slice fed.u8 };

    ghost respects_eq = { Prim.search (hashing, rules) };

    fn hash<H: Hasher>(&self, state: &mut H) {
        self.as_slice().hash(state);
    }
}

impl Equivalent<Label> for &[u8] {
    ghost equivalent = { λ q k. bytes_eq q.now k };

    ghost respects_hash = { λ q k h. ap (fed.slice fed.u8) ((bytes_decides q.now k).0 h) };

    ghost respects_eq = { λ q x y. nat_list_eq_equiv.congr q.now x y };

    fn equivalent(&self, key: &Label) -> bool {
        *self == key.as_slice()
    }
}
