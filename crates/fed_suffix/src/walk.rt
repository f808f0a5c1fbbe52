//! Walks through the tree of rules by labels, from the right to the left.
ghost use Rattle.std.specs.Prelude.{◌≡◌, max, length, ◌<◌, ◌+◌, ◌^◌, true, false, option_and_then};
ghost use Rattle.std.specs.Option.{option_copied, option_map_or, option_or};
ghost use Rattle.std.specs.FinSet as set;
ghost use Rattle.fed_suffix.specs.Label.{labels_before, labels_in, labels_of};
ghost use Rattle.fed_suffix.specs.Registrable.{matching, suffix_len};
ghost use Rattle.fed_suffix.specs.Node.{child};
ghost use Rattle.fed_suffix.specs.Walk.{ending_at, child_by_star, longest_from, longest_by};

use crate::SuffixNode;
use crate::label::{first_label, last_label};

/// How many labels the longest exception and the longest other rule have, 0 where there is none.
#[derive(Clone, Copy)]
struct Longest {
    exception: usize,
    plain: usize,
}

/// The ways from a node to those below it.
#[derive(Clone, Copy)]
struct Ways<'a> {
    first: Option<&'a SuffixNode>,
    second: Option<&'a SuffixNode>,
}

/// How many labels the public suffix of a name has.
pub fn suffix_len(top: &SuffixNode, name: &[u8]) -> usize
    ensures { result ≡ suffix_len (matching top.now (labels_of name.now)) }
{
    let longest = find_longest(top, Some(name), 0);
    if longest.exception > 0 {
        longest.exception - 1
    } else {
        longest.plain.max(1)
    }
}

/// Whether the rule with these labels, from the right, was read.
pub fn has_rule(top: &SuffixNode, labels: &[u8], exception: bool) -> bool
    ensures { result ≡ set.contains top.now (labels_in labels.now, exception) }
{
    let mut node = top;
    let mut rest = Some(labels);
    while let Some(text) = rest {
        let first = first_label(text);
        let Some(next) = node.child(first.label) else {
            return false;
        };
        node = next;
        rest = first.after;
    }
    node.has(exception)
}

// The longest rules at a node, to which `depth` labels lead, and below it, by the labels of a
// name. A node with one way on is left in the loop, so that a call is nested only where both
// a label and `*` lead on.
#[cycle(walk)]
fn find_longest(top: &SuffixNode, mut name: Option<&[u8]>, mut depth: usize) -> Longest
    requires { depth + option_map_or (λ text. length text.now + 1) name 0 < 2 ^ 64 }
    ensures exception { result.exception ≡ longest_from top.now true depth (labels_before (option_copied name.entry)) }
    ensures plain { result.plain ≡ longest_from top.now false depth (labels_before (option_copied name.entry)) }
{
    let mut node = top;
    let mut longest = endings(node, depth);
    while let Some(text) = name {
        let last = last_label(text);
        let ways = ways_on(node, last.label);
        longest = longest.or(find_longest_by(ways.second, last.before, depth));
        let Some(next) = ways.first else {
            return longest;
        };
        node = next;
        name = last.before;
        depth += 1;
        longest = longest.or(endings(node, depth));
    }
    longest
}

// The same by a way to a node with one label more.
#[cycle(walk)]
fn find_longest_by(way: Option<&SuffixNode>, name: Option<&[u8]>, depth: usize) -> Longest
    requires { depth + 1 + option_map_or (λ text. length text.now + 1) name 0 < 2 ^ 64 }
    ensures exception { result.exception ≡ longest_by true (option_copied way.entry) depth (labels_before (option_copied name.entry)) }
    ensures plain { result.plain ≡ longest_by false (option_copied way.entry) depth (labels_before (option_copied name.entry)) }
{
    match way {
        Some(node) => find_longest(node, name, depth + 1),
        None => Longest {
            exception: 0,
            plain: 0,
        },
    }
}

// What ends at a node to which `depth` labels lead.
fn endings(node: &SuffixNode, depth: usize) -> Longest
    ensures exception { result.exception ≡ ending_at node.now true depth }
    ensures plain { result.plain ≡ ending_at node.now false depth }
{
    Longest {
        exception: if node.has(true) { depth } else { 0 },
        plain: if node.has(false) { depth } else { 0 },
    }
}

// The nodes to which a label and `*` lead: where there is one way, it is the first.
fn ways_on<'a>(node: &'a SuffixNode, label: &[u8]) -> Ways<'a>
    ensures first { option_copied result.first ≡ option_or (child node.now label.now) (child_by_star node.now label.now) }
    ensures second { option_copied result.second ≡ option_and_then (λ _. child_by_star node.now label.now) (child node.now label.now) }
{
    let star = star_child(node, label);
    match node.child(label) {
        Some(child) => Ways {
            first: Some(child),
            second: star,
        },
        None => Ways {
            first: star,
            second: None,
        },
    }
}

// The node to which `*` leads, but for the label `*` itself.
fn star_child<'a>(node: &'a SuffixNode, label: &[u8]) -> Option<&'a SuffixNode>
    ensures { option_copied result ≡ child_by_star node.now label.now }
{
    if label == b"*".as_slice() {
        return None;
    }
    node.child(b"*")
}

impl Longest {
    fn or(self, other: Longest) -> Longest
        ensures exception { result.exception ≡ max self.exception other.exception }
        ensures plain { result.plain ≡ max self.plain other.plain }
    {
        Longest {
            exception: self.exception.max(other.exception),
            plain: self.plain.max(other.plain),
        }
    }
}
