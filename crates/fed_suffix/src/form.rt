//! The forms of a node.
ghost use Rattle.std.specs.Prelude.{◌≡◌, ◌<◌, ◌≤◌, false, [], ◌∷◌, ◌++◌, length, bytes_eq, position, is_some, set, slice_index_or};
ghost use Rattle.std.specs.Prelude.{IfOk, IfSome, OnOk, OnErr};
ghost use Rattle.std.specs.List.{list_any, IsDistinct};
ghost use Rattle.std.specs.Vec.{vec_capacity};
ghost use Rattle.indexmap.specs.IndexSet.{IsEmpty, spare};
ghost use Rattle.fed_suffix.specs.Form.{ends_of, labels_below, nodes_below, IsOne};

use crate::SuffixNode;
use crate::stored_label::Label;
use fed_io::NoRoom;
use indexmap::IndexSet;
use std::alloc::Global;
use std::{mem, slice};

/// Whether an exception and whether another rule ends at a node.
#[derive(Clone, Copy)]
pub struct Ends {
    pub plain: bool,
    pub exception: bool,
}

/// What ends at a node, and the nodes below it with their labels. Most nodes have none or one below
/// them, for which a table would be a waste.
#[cycle(tree)]
#[derive(Drop)]
pub enum Form {
    Leaf(Ends),
    One(Ends, Box<Child>),
    Many(Ends, Box<Children>),
}

/// A node with its label.
#[cycle(tree)]
#[derive(Drop)]
pub struct Child {
    pub label: Label,
    pub node: SuffixNode,
}

/// Some nodes with their labels.
#[cycle(tree)]
#[derive(Drop)]
pub struct Children {
    // A label has the place of its node.
    pub labels: IndexSet<Label>,
    pub nodes: Vec<SuffixNode>,
}

impl Ends {
    /// No rule ends.
    pub fn none() -> Ends
        ensures { result ≡ record { plain = false; exception = false } }
    {
        Ends {
            plain: false,
            exception: false,
        }
    }
}

impl Form {
    /// What ends at the node.
    pub fn ends(&self) -> Ends
        ensures { result ≡ ends_of self.now }
    {
        match self {
            Form::Leaf(ends) => *ends,
            Form::One(ends, _) => *ends,
            Form::Many(ends, _) => *ends,
        }
    }

    /// The same nodes below, where this ends at the node.
    pub fn set_ends(&mut self, new: Ends)
        ensures ends { ends_of self.new ≡ new }
        ensures nodes { nodes_below self.new ≡ nodes_below self.old }
        ensures labels { labels_below self.new ≡ labels_below self.old }
    {
        match self {
            Form::Leaf(ends) => *ends = new,
            Form::One(ends, _) => *ends = new,
            Form::Many(ends, _) => *ends = new,
        }
    }

    /// The place of the node with the label.
    pub fn place(&self, label: &[u8]) -> Option<usize>
        ensures index { result ≡ position (λ key. bytes_eq label.now key) (labels_below self.now) }
        ensures found { is_some result ≡ list_any (λ key. bytes_eq label.now key) (labels_below self.now) }
        ensures within { IfSome result (λ i. i < length (labels_below self.now)) }
        ensures unique { IsDistinct (λ a b. bytes_eq a b) (labels_below self.now) }
    {
        match self {
            Form::Leaf(_) => None,
            Form::One(_, child) => {
                if label == child.label.as_slice() {
                    return Some(0);
                }
                None
            }
            Form::Many(_, children) => {
                // By its contract no label stands twice.
                let _ = children.labels.len();
                children.labels.get_index_of(label)
            }
        }
    }

    /// The nodes.
    pub fn nodes(&self) -> &[SuffixNode]
        ensures { result.now ≡ nodes_below self.now }
    {
        match self {
            Form::Leaf(_) => &[],
            Form::One(_, child) => slice::from_ref(&child.node),
            Form::Many(_, children) => children.nodes.as_slice(),
        }
    }

    /// Puts the node at the place, and gives the one that stood there.
    pub fn put_at(&mut self, place: usize, node: SuffixNode) -> SuffixNode
        requires { place < length (nodes_below self.old) }
        ensures value { result ≡ slice_index_or (nodes_below self.old) place result }
        ensures nodes { nodes_below self.new ≡ set (nodes_below self.old) place node }
        ensures labels { labels_below self.new ≡ labels_below self.old }
        ensures ends { ends_of self.new ≡ ends_of self.old }
    {
        match self {
            // There is a place.
            Form::Leaf(_) => node,
            Form::One(_, child) => mem::replace(&mut child.node, node),
            Form::Many(_, children) => mem::replace(&mut children.nodes[place], node),
        }
    }

    /// Adds a node under a new label.
    pub fn add(&mut self, alloc: Global, label: Label, node: SuffixNode) -> Result<(), NoRoom>
        requires { list_any (λ key. bytes_eq label key) (labels_below self.old) ≡ false }
        ensures ok_labels { OnOk result (labels_below self.new ≡ labels_below self.old ++ label ∷ []) }
        ensures ok_nodes { OnOk result (nodes_below self.new ≡ nodes_below self.old ++ node ∷ []) }
        ensures err_labels { OnErr result (labels_below self.new ≡ labels_below self.old) }
        ensures err_nodes { OnErr result (nodes_below self.new ≡ nodes_below self.old) }
        ensures ends { ends_of self.new ≡ ends_of self.old }
    {
        match self {
            Form::Leaf(ends) => {
                let ends = *ends;
                *self = Form::One(ends, alone(alloc, label, node)?);
                Ok(())
            }
            Form::One(_, _) => self.add_second(alloc, label, node),
            Form::Many(_, children) => children.add(alloc, label, node),
        }
    }

    // A table for the one node and for another after it. All that takes memory comes before the one
    // is taken out.
    fn add_second(&mut self, alloc: Global, label: Label, node: SuffixNode) -> Result<(), NoRoom>
        requires one { IsOne self.old }
        requires absent { list_any (λ key. bytes_eq label key) (labels_below self.old) ≡ false }
        ensures ok_labels { OnOk result (labels_below self.new ≡ labels_below self.old ++ label ∷ []) }
        ensures ok_nodes { OnOk result (nodes_below self.new ≡ nodes_below self.old ++ node ∷ []) }
        ensures err_labels { OnErr result (labels_below self.new ≡ labels_below self.old) }
        ensures err_nodes { OnErr result (nodes_below self.new ≡ nodes_below self.old) }
        ensures ends { ends_of self.new ≡ ends_of self.old }
    {
        let Ok(room) = room_for_two(alloc) else {
            node.let_go(alloc);
            return Err(NoRoom);
        };
        let Form::One(ends, first) = mem::replace(self, Form::Leaf(Ends::none())) else {
            unreachable!()
        };
        let second = Child { label, node };
        *self = Form::Many(ends, filled(room, Box::into_inner(first), second));
        Ok(())
    }
}

// The node with its label in a place of its own.
fn alone(alloc: Global, label: Label, node: SuffixNode) -> Result<Box<Child>, NoRoom>
    ensures label { IfOk result (λ child. child.value.label ≡ label) }
    ensures node { IfOk result (λ child. child.value.node ≡ node) }
{
    let empty = Child {
        label,
        node: SuffixNode::new(),
    };
    let Ok(mut child) = Box::new(alloc, empty) else {
        node.let_go(alloc);
        return Err(NoRoom);
    };
    child.node = node;
    Ok(child)
}

fn room_for_two(alloc: Global) -> Result<Box<Children>, NoRoom>
    ensures empty { IfOk result (λ children. IsEmpty children.value.labels) }
    ensures room { IfOk result (λ children. 2 ≤ spare children.value.labels) }
    ensures no_nodes { IfOk result (λ children. children.value.nodes.items ≡ []) }
    ensures nodes { IfOk result (λ children. 2 ≤ vec_capacity children.value.nodes) }
{
    let children = Children {
        labels: IndexSet::with_capacity(alloc, 2)?,
        nodes: Vec::with_capacity(alloc, 2)?,
    };
    Ok(Box::new(alloc, children)?)
}

fn filled(mut children: Box<Children>, first: Child, second: Child) -> Box<Children>
    requires empty { IsEmpty children.value.labels }
    requires room { 2 ≤ spare children.value.labels }
    requires no_nodes { children.value.nodes.items ≡ [] }
    requires nodes { 2 ≤ vec_capacity children.value.nodes }
    requires apart { bytes_eq second.label first.label ≡ false }
    ensures labels { result.value.labels.keys ≡ first.label ∷ second.label ∷ [] }
    ensures nodes { result.value.nodes.items ≡ first.node ∷ second.node ∷ [] }
{
    children.labels.insert(first.label).unwrap();
    children.labels.insert(second.label).unwrap();
    children.nodes.push_reserved(first.node);
    children.nodes.push_reserved(second.node);
    children
}

impl Children {
    // Adds a node under a new label.
    fn add(&mut self, alloc: Global, label: Label, node: SuffixNode) -> Result<(), NoRoom>
        requires { list_any (λ key. bytes_eq label key) self.old.labels.keys ≡ false }
        ensures ok_labels { OnOk result (self.new.labels.keys ≡ self.old.labels.keys ++ label ∷ []) }
        ensures ok_nodes { OnOk result (self.new.nodes.items ≡ self.old.nodes.items ++ node ∷ []) }
        ensures err_labels { OnErr result (self.new.labels.keys ≡ self.old.labels.keys) }
        ensures err_nodes { OnErr result (self.new.nodes.items ≡ self.old.nodes.items) }
    {
        let Ok(()) = self.nodes.reserve(1) else {
            node.let_go(alloc);
            return Err(NoRoom);
        };
        let Ok(_) = self.labels.insert(label) else {
            node.let_go(alloc);
            return Err(NoRoom);
        };
        self.nodes.push_reserved(node);
        Ok(())
    }
}
