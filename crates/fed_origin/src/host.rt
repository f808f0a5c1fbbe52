//! Hosts.
ghost use Rattle.std.specs.Prelude.{◌≡◌, Some, IfOk, bytes_eq, refl, IsAscii};
ghost use Rattle.std.proofs.Common.{rules};
ghost use Rattle.std.specs.Ordering.{nat_cmp};
ghost use Rattle.std.specs.Hash as fed;
ghost use Rattle.std.specs.Cmp.{partial_equiv_from_equiv};
ghost use Rattle.std.specs.Cmp.Lexicographic.{slice_cmp, nat_list_eq_equiv, nat_list_cmp_total, texts_ties, texts_po};
ghost use Rattle.std.specs.Cmp.Rules.{hashing};

use fed_io::{NoRoom, Text};
use std::alloc::Global;
use std::cmp::Ordering;
use std::hash::{Hash, Hasher};
use std::marker::Model;

/// What a host is (URL 3.1).
#[derive(Clone, Copy, Debug, PartialEq, Eq, PartialOrd, Ord, Hash)]
pub enum HostKind {
    /// A name.
    Name,
    /// An address of version 4.
    V4,
    /// An address of version 6.
    V6,
}

/// A host, with its text as the URL standard writes it (URL 3.5). Contracts see it as the bytes of the text, all below
/// 128; the text says which kind it is.
pub struct Host {
    pub kind: HostKind,
    pub text: Text,
}

// Written out, so that one function lets it go wherever it ends.
impl Drop for Host {
    fn drop(self) {
        let Host { kind: _, text: _ } = self;
    }
}

impl Model for Host {
    ghost use Rattle.std.specs.Prelude.{◌≡◌, List, ℕ, IsAscii};

    ghost Value = { List ℕ };

    ghost use Rattle.fed_origin.specs.Host.{host_kind};

    ghost view = { λ h. h.text };

    ghost invariant = { λ h. (h.kind ≡ host_kind h.text) × IsAscii h.text };
}

impl Host {
    ghost use Rattle.fed_origin.specs.Host.{host_kind};

    /// The host with this text, which is one as a URL writes it.
    pub fn of(alloc: Global, text: &str) -> Result<Host, NoRoom>
        requires { IsAscii text.now }
        ensures { IfOk result (λ host. host ≡ text.now) }
    {
        Ok(Host {
            kind: HostKind::of_text(text.as_bytes()),
            text: Text::of(alloc, text)?,
        })
    }

    /// The kind, which the text gives.
    pub fn kind(&self) -> HostKind
        ensures kind { result ≡ host_kind self.now }
        ensures ascii { IsAscii self.now }
    {
        self.kind
    }

    /// A host equal to this one.
    pub fn copy(&self, alloc: Global) -> Result<Host, NoRoom>
        ensures { IfOk result (λ host. host ≡ self.now) }
    {
        Ok(Host {
            kind: self.kind,
            text: self.text.copy(alloc)?,
        })
    }
}

impl PartialEq for Host {
    ghost eq = { bytes_eq };

    ghost laws = { partial_equiv_from_equiv nat_list_eq_equiv };

    fn eq(&self, other: &Host) -> bool {
        self.text == other.text
    }
}

impl Eq for Host {
    ghost laws = { nat_list_eq_equiv };
}

impl PartialOrd for Host {
    ghost partial_cmp = { λ x y. Some (slice_cmp nat_cmp x y) };

    ghost laws = { texts_po };

    fn partial_cmp(&self, other: &Host) -> Option<Ordering> {
        Some(self.cmp(other))
    }
}

impl Ord for Host {
    ghost cmp = { slice_cmp nat_cmp };

    ghost total = { nat_list_cmp_total };

    ghost matches_partial_cmp = { λ x y. refl };

    ghost matches_eq = { λ x y. texts_ties x y };

    fn cmp(&self, other: &Host) -> Ordering {
        self.text.cmp(&other.text)
    }
}

impl Hash for Host {
    ghost hash_input = { fed.str };

    ghost respects_eq = { Prim.search (hashing, rules) };

    fn hash<H: Hasher>(&self, state: &mut H) {
        self.text.hash(state);
    }
}

ghost use Rattle.std.specs.Prelude.{◌==◌};

// Whether the text is four decimal numbers joined by dots.
fn is_four_numbers(text: &[u8]) -> bool
    ensures { result ≡ spec.is_four_numbers text.now }
{
    let mut left: u8 = 3;
    let mut begun = false;
    for b in text {
        if b.is_ascii_digit() {
            begun = true;
        } else if *b == b'.' && begun && left >= 1 {
            left -= 1;
            begun = false;
        } else {
            return false;
        }
    }
    begun && left == 0
}

ghost use Rattle.fed_origin.specs.Host as spec;

impl HostKind {
    /// The kind of the host with this text: one that begins with `[` is an address of version 6,
    /// and four decimal numbers joined by dots are one of version 4 (URL 3.5).
    pub fn of_text(text: &[u8]) -> HostKind
        ensures { result ≡ spec.host_kind text.now }
    {
        if text.first() == Some(&b'[') {
            HostKind::V6
        } else if is_four_numbers(text) {
            HostKind::V4
        } else {
            HostKind::Name
        }
    }
}
