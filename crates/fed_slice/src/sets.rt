//! Numbers that are joined into sets.
ghost use Rattle.std.specs.Prelude.{◌≡◌, ◌<◌, ◌≤◌, ◌^◌, ℕ, Bool, length, slice_index_or, IfOk};
ghost use Rattle.fed_slice.specs.Sets.{AreParents, Respects, SameSets, KeepsRoots, Joins, IsSetOf, told_by};

use fed_io::NoRoom;
use std::alloc::Global;

/// The number that stands for the set of this one. The ways that are gone get shorter.
pub(crate) fn root_of(parents: &mut Vec<u32>, number: u32) -> u32
    requires within { number < length parents.old.items }
    requires parents { AreParents parents.old.items }
    ensures parents { AreParents parents.new.items }
    ensures len { length parents.new.items ≡ length parents.old.items }
    ensures sets { SameSets parents.old.items parents.new.items }
    ensures within { result < length parents.new.items }
    ensures root { slice_index_or parents.new.items result 0 ≡ result }
    ensures one { (test : ℕ → Bool) → Respects test parents.new.items → test result ≡ test number }
    ensures roots { KeepsRoots parents.old.items parents.new.items }
{
    let mut at = number;
    while parents[at as usize] != at {
        let above = parents[at as usize];
        let next = parents[above as usize];
        parents[at as usize] = next;
        at = next;
    }
    at
}

/// Joins the sets of two numbers.
pub(crate) fn join(parents: &mut Vec<u32>, a: u32, b: u32)
    requires first { a < length parents.old.items }
    requires second { b < length parents.old.items }
    requires parents { AreParents parents.old.items }
    ensures parents { AreParents parents.new.items }
    ensures len { length parents.new.items ≡ length parents.old.items }
    ensures joins { Joins parents.old.items parents.new.items a b }
{
    let first = root_of(parents, a);
    let second = root_of(parents, b);
    if first < second {
        parents[second as usize] = first;
    } else {
        parents[first as usize] = second;
    }
}

// Whether a number is of the set that `root` stands for, where it is told of the numbers below.
fn is_inside(inside: &[bool], above: u32, number: u32, root: u32) -> bool
    requires below { above ≤ number }
    requires told { length inside.now ≡ number }
    ensures { result ≡ told_by inside.now above number root }
{
    if above == number {
        number == root
    } else {
        inside[above as usize]
    }
}

/// Of each number, whether it is of the set that `root` stands for.
pub(crate) fn set_of(alloc: Global, parents: &[u32], root: u32) -> Result<Vec<bool>, NoRoom>
    requires parents { AreParents parents.now }
    requires within { root < length parents.now }
    requires root { slice_index_or parents.now root 0 ≡ root }
    requires few { length parents.now < 2 ^ 32 }
    ensures { IfOk result (λ inside. IsSetOf parents.now root inside.items) }
{
    let mut inside: Vec<bool> = Vec::new(alloc);
    let mut number: u32 = 0;
    while (number as usize) < parents.len() {
        let above = parents[number as usize];
        inside.push(is_inside(inside.as_slice(), above, number, root))?;
        number += 1;
    }
    Ok(inside)
}
