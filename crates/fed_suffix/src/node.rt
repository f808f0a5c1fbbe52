//! The nodes of the tree of rules.
ghost use Rattle.std.specs.Prelude.{◌≡◌, ℕ, Bool, true, false, List, [], ◌∷◌, IfOk, IfErr, OnOk, OnErr};
ghost use Rattle.std.specs.Option.{option_copied};
ghost use Rattle.std.specs.FinSet as set;
ghost use Rattle.fed_suffix.specs.Label.{labels_after};
ghost use Rattle.fed_suffix.specs.Node as spec;
ghost use Rattle.fed_suffix.specs.Opened.{closed, goes_nowhere, IsOpening};

use crate::form::{Child, Ends, Form};
use crate::label::{first_label, last_label};
use crate::stored_label::Label;
use fed_io::NoRoom;
use std::alloc::Global;
use std::marker::Model;
use std::mem;

/// A node of the tree of rules, which contracts see as the set of what is left of the rules that
/// lead through it (Public Suffix List, "Algorithm": labels are matched from the right).
#[cycle(tree)]
#[derive(Drop)]
pub struct SuffixNode {
    form: Form,
}

impl Model for SuffixNode {
    ghost use Rattle.fed_suffix.specs.Rule.{RuleSet, rule_code};
    ghost use Rattle.std.specs.FinSet as set;

    ghost Value = { RuleSet };

    ghost coded = { set.code rule_code };

    ghost use Rattle.fed_suffix.specs.Node.{IsNode, height};
    ghost use Rattle.fed_suffix.specs.Form.{labels_below, nodes_below, rules_by};

    ghost view = { λ a. rules_by a.form };

    ghost invariant = { λ a. IsNode (labels_below a.form) (nodes_below a.form) };

    ghost size = { λ rules. height (set.items rules) };

    ghost use Rattle.fed_suffix.specs.NodeFalls.{lower_below};

    ghost size_decreases = { λ a h. lower_below a.form h };
}

impl SuffixNode {
    /// No rules. It takes no memory.
    pub(crate) fn new() -> SuffixNode
        ensures { result ≡ set.empty }
    {
        SuffixNode {
            form: Form::Leaf(Ends::none()),
        }
    }

    /// The node to which a label leads, `None` exactly where no rule goes on with it. The text `*`
    /// is a label here. It takes no memory.
    pub fn child(&self, label: &[u8]) -> Option<&SuffixNode>
        ensures { option_copied result ≡ spec.child self.now label.now }
    {
        let place = self.form.place(label)?;
        Some(&self.form.nodes()[place])
    }

    /// Whether a rule ends at the node: an exception, or another rule. It takes no memory.
    pub fn has(&self, exception: bool) -> bool
        ensures { result ≡ spec.ends self.now exception }
    {
        let ends = self.form.ends();
        if exception {
            return ends.exception;
        }
        ends.plain
    }

    /// Adds a rule with these labels, from the right, of which the first leads nowhere yet. After
    /// any refusal the rules are unchanged.
    pub(crate) fn add_rest(
        &mut self,
        alloc: Global,
        labels: Option<&[u8]>,
        exception: bool,
    ) -> Result<(), NoRoom>
        requires { goes_nowhere self.old (labels_after (option_copied labels)) ≡ true }
        ensures ok { OnOk result (self.new ≡ set.insert self.old (labels_after (option_copied labels.entry), exception)) }
        ensures err { OnErr result (self.new ≡ self.old) }
    {
        match labels {
            None => {
                self.set_end(exception);
                Ok(())
            }
            Some(text) => {
                let first = first_label(text);
                self.add_below(alloc, first.label, first.after, exception)
            }
        }
    }

    // The same for a rule with at least one label, the first one apart.
    fn add_below(
        &mut self,
        alloc: Global,
        label: &[u8],
        rest: Option<&[u8]>,
        exception: bool,
    ) -> Result<(), NoRoom>
        requires { spec.has_rules (spec.below self.old label.now) ≡ false }
        ensures ok { OnOk result (self.new ≡ set.insert self.old (label.now ∷ labels_after (option_copied rest.entry), exception)) }
        ensures err { OnErr result (self.new ≡ self.old) }
    {
        let label = Label::of(alloc, label)?;
        let node = SuffixNode::of_rule(alloc, rest, exception)?;
        self.form.add(alloc, label, node)?;
        Ok(())
    }

    fn set_end(&mut self, exception: bool)
        ensures { self.new ≡ set.insert self.old ([], exception) }
    {
        let ends = self.form.ends();
        if exception {
            self.form.set_ends(Ends {
                plain: ends.plain,
                exception: true,
            });
        } else {
            self.form.set_ends(Ends {
                plain: true,
                exception: ends.exception,
            });
        }
    }

    // A node with one rule alone. It begins with the last label, in a loop, since a rule may have
    // more labels than calls can be nested.
    fn of_rule(alloc: Global, labels: Option<&[u8]>, exception: bool) -> Result<SuffixNode, NoRoom>
        ensures { IfOk result (λ node. node ≡ set.insert set.empty (labels_after (option_copied labels.entry), exception)) }
    {
        let mut node = SuffixNode::new();
        node.set_end(exception);
        let mut left = labels;
        while let Some(text) = left {
            let last = last_label(text);
            node = node.under(alloc, last.label)?;
            left = last.before;
        }
        Ok(node)
    }

    // A node with this one alone below it.
    fn under(self, alloc: Global, label: &[u8]) -> Result<SuffixNode, NoRoom>
        requires { spec.has_rules self ≡ true }
        ensures { IfOk result (λ node. (labels : List (List ℕ)) (exception : Bool) → self ≡ set.insert set.empty (labels, exception)
            → node ≡ set.insert set.empty (label.now ∷ labels, exception)) }
    {
        let Ok(label) = Label::of(alloc, label) else {
            self.let_go(alloc);
            return Err(NoRoom);
        };
        let mut form = Form::Leaf(Ends::none());
        form.add(alloc, label, self)?;
        Ok(SuffixNode { form })
    }

    /// The node without the one to which a label leads, and that one, or this node again where no
    /// rule goes on with the label. It takes no memory.
    pub(crate) fn open(self, label: &[u8]) -> Result<(Opened, SuffixNode), SuffixNode>
        ensures ok { IfOk result (λ parts. IsOpening self label.now parts.0 parts.1) }
        ensures err { IfErr result (λ node. node ≡ self) }
        ensures err_absent { OnErr result (spec.has_rules (spec.below self label.now) ≡ false) }
    {
        let Some(place) = self.form.place(label) else {
            return Err(self);
        };
        let SuffixNode { mut form } = self;
        let node = form.put_at(place, SuffixNode::new());
        let opened = Opened { form, place };
        Ok((opened, node))
    }

    /// Lets the node go, with those below it, from node to node in a loop: a derived drop calls
    /// itself once for each label of a rule.
    pub(crate) fn let_go(self, alloc: Global) {
        let mut open = Vec::new(alloc);
        let mut form = self.into_form();
        for _ in 0..u64::MAX {
            match form {
                Form::Leaf(_) => {}
                Form::One(_, child) => {
                    let Child { label: _, node } = Box::into_inner(child);
                    form = node.into_form();
                    continue;
                }
                Form::Many(_, mut children) => {
                    if open.is_empty() {
                        mem::swap(&mut open, &mut children.nodes);
                    } else if open.append(&mut children.nodes).is_err() {
                        return;
                    }
                }
            }
            let Some(node) = open.pop() else {
                return;
            };
            form = node.into_form();
        }
    }

    fn into_form(self) -> Form {
        let SuffixNode { form } = self;
        form
    }
}

/// A node without one of the nodes below it, which contracts see as the label of that node and
/// the other rules.
#[derive(Drop)]
pub struct Opened {
    form: Form,
    // Here stands a node without rules.
    place: usize,
}

impl Model for Opened {
    ghost use Rattle.fed_suffix.specs.Opened.{Opened as Value_, opened_code};

    ghost Value = { Value_ };

    ghost coded = { opened_code };

    ghost use Rattle.fed_suffix.specs.Form.{labels_below, nodes_below, rules_by};
    ghost use Rattle.fed_suffix.specs.Opened.{label_at, IsOpened};

    ghost view = { λ a. (label_at (λ label. label) (labels_below a.form) a.place, rules_by a.form) };

    ghost invariant = { λ a. IsOpened (labels_below a.form) (nodes_below a.form) a.place };
}

impl Opened {
    /// The node with this one at the place of the one that was taken out.
    pub(crate) fn close(self, node: SuffixNode) -> SuffixNode
        requires { spec.has_rules node ≡ true }
        ensures { result ≡ closed self.0 node self.1 }
    {
        let Opened { mut form, place } = self;
        form.put_at(place, node);
        SuffixNode { form }
    }
}
