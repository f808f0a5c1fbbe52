//! Adds rules to the tree, in a loop down from node to node and one up again, since a rule may have
//! more labels than calls can be nested.
ghost use Rattle.std.specs.Prelude.{◌≡◌, true, IfOk, IfErr, OnOk, OnErr};
ghost use Rattle.std.specs.FinSet as set;
ghost use Rattle.std.specs.Option.{option_copied};
ghost use Rattle.fed_suffix.specs.Label.{labels_in, labels_after};
ghost use Rattle.fed_suffix.specs.Opened.{all_closed, fits, goes_nowhere, Leads};

use crate::label::first_label;
use crate::node::{Opened, SuffixNode};
use fed_io::NoRoom;
use std::alloc::Global;
use std::mem;

// The node to which some labels lead, those above it, the top first, and the other labels.
struct Way<'a> {
    above: Vec<Opened>,
    node: SuffixNode,
    rest: Option<&'a [u8]>,
}

/// Adds the rule with these labels, from the right. After any refusal the rules are unchanged.
pub fn insert(
    top: &mut SuffixNode,
    alloc: Global,
    labels: &[u8],
    exception: bool,
) -> Result<(), NoRoom>
    ensures ok { OnOk result (top.new ≡ set.insert top.old (labels_in labels.now, exception)) }
    ensures err { OnErr result (top.new ≡ top.old) }
{
    let whole = mem::replace(top, SuffixNode::new());
    match follow(alloc, whole, labels) {
        Ok(way) => {
            let Way {
                above,
                mut node,
                rest,
            } = way;
            let added = node.add_rest(alloc, rest, exception);
            *top = close_all(above, node);
            added
        }
        Err(whole) => {
            *top = whole;
            Err(NoRoom)
        }
    }
}

// Goes by the labels as far as they lead, or gives the tree back where there is no memory.
fn follow(alloc: Global, whole: SuffixNode, labels: &[u8]) -> Result<Way<'_>, SuffixNode>
    ensures ok { IfOk result (λ way. Leads (labels_in labels.now) whole way.above.items way.node (labels_after (option_copied way.rest))) }
    ensures ok_end { IfOk result (λ way. goes_nowhere way.node (labels_after (option_copied way.rest)) ≡ true) }
    ensures err { IfErr result (λ node. node ≡ whole) }
{
    let mut above = Vec::new(alloc);
    let mut node = whole;
    let mut rest = Some(labels);
    while let Some(text) = rest {
        let Ok(()) = above.reserve(1) else {
            return Err(close_all(above, node));
        };
        let first = first_label(text);
        match node.open(first.label) {
            Ok((opened, below)) => {
                above.push_reserved(opened);
                node = below;
                rest = first.after;
            }
            Err(same) => {
                return Ok(Way {
                    above,
                    node: same,
                    rest,
                });
            }
        }
    }
    Ok(Way { above, node, rest })
}

fn close_all(above: Vec<Opened>, node: SuffixNode) -> SuffixNode
    requires { fits above.items node ≡ true }
    ensures { result ≡ all_closed above.items node }
{
    let mut above = above;
    let mut node = node;
    while let Some(opened) = above.pop() {
        node = opened.close(node);
    }
    node
}
