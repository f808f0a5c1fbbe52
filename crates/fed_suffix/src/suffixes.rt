//! Sets of public suffix rules, registrable domains and parties.
ghost use Rattle.std.specs.Prelude.{◌≡◌, ◌↔◌, IsTrue, IfOk, OnOk, OnErr, option_map};
ghost use Rattle.std.specs.Option.{option_copied};
ghost use Rattle.std.specs.FinSet as set;
ghost use Rattle.fed_io.specs.Fault.{AnswersBy};
ghost use Rattle.fed_suffix.specs.Label.{name_of, labels_in, labels_of};
ghost use Rattle.fed_suffix.specs.Rule.{same_rules};
ghost use Rattle.fed_suffix.specs.RuleLine.{rules_after};
ghost use Rattle.fed_suffix.specs.Registrable as spec;
ghost use Rattle.fed_suffix.specs.RulesText.{rules_text};

use crate::insertion::insert;
use crate::label::{has_empty_label, one_label_more};
use crate::rule::{Mark, are_within, is_skipped, read_rule, rule_text};
use crate::text::text_of;
use crate::walk::suffix_len;
use crate::{SuffixNode, SuffixRefusal};
use fed_io::{Bytes, Fault, NoRoom};
use fed_origin::{Host, HostKind};
use std::alloc::Global;
use std::marker::Model;

/// The rules of a public suffix list (Public Suffix List, "Format"), which contracts see as their
/// finite set. The rule `*` always stands and is none of them.
pub struct Suffixes {
    top: SuffixNode,
    // The labels of all rules in the order of reading, one after another, which a copy and `same`
    // go through.
    texts: Vec<u8>,
    marks: Vec<Mark>,
    alloc: Global,
}

impl Model for Suffixes {
    ghost use Rattle.fed_suffix.specs.Rule.{RuleSet, rule_code};
    ghost use Rattle.std.specs.FinSet as set;

    ghost Value = { RuleSet };

    ghost coded = { set.code rule_code };

    ghost view = { λ s. s.top };

    ghost use Rattle.fed_suffix.specs.Packed.{ArePacked};

    ghost invariant = { λ s. ArePacked s.texts.items s.marks.items s.top };
}

impl Drop for Suffixes {
    fn drop(self) {
        let Suffixes {
            top,
            texts: _,
            marks: _,
            alloc,
        } = self;
        top.let_go(alloc);
    }
}

impl Suffixes {
    /// No rules. It takes no memory.
    pub fn new(alloc: Global) -> Suffixes
        ensures { result ≡ set.empty }
    {
        Suffixes {
            top: SuffixNode::new(),
            texts: Vec::new(alloc),
            marks: Vec::new(alloc),
            alloc,
        }
    }

    /// Reads a line of a suffix list (Public Suffix List, "Format"): its part up to the first
    /// space, tab or carriage return. An empty part or one that begins with `//` holds no rule.
    /// `!` in front marks an exception. The labels stand in ASCII form. `BadRule` comes exactly
    /// where a label has no ASCII form, is empty or holds a dot, or where an exception has one
    /// label only. After any refusal the rules are unchanged.
    pub fn read_line(&mut self, line: &str) -> Result<(), Fault<SuffixRefusal>>
        ensures answer { AnswersBy (λ _. self.new) result (rules_after self.old line.now) }
        ensures err { OnErr result (self.new ≡ self.old) }
    {
        let text = rule_text(line.as_bytes());
        if is_skipped(text) {
            return Ok(());
        }
        match read_rule(self.alloc, text)? {
            Some(rule) => {
                self.add(rule.labels(), rule.is_exception())?;
                Ok(())
            }
            None => Err(Fault::Step(SuffixRefusal::BadRule)),
        }
    }

    /// The registrable domain of a host: its public suffix and one label more (Public Suffix
    /// List, "Algorithm"). `None` exactly where the host is an address, has an empty label, ends
    /// in a dot, or has no label more than the suffix. It takes no memory.
    pub fn registrable<'a>(&self, host: &'a Host) -> Option<&'a [u8]>
        ensures { option_copied result ≡ spec.registrable self.now host.now }
    {
        match host.kind {
            HostKind::Name => self.of_name(host.text.as_str().as_bytes()),
            HostKind::V4 | HostKind::V6 => None,
        }
    }

    /// The registrable domain of the host with this text, byte for byte: upper case is not made
    /// lower, and no label is brought to ASCII form. `None` as for `registrable`. It takes no
    /// memory.
    pub fn registrable_name<'a>(&self, name: &'a [u8]) -> Option<&'a [u8]>
        ensures { option_copied result ≡ spec.registrable self.now name.now }
    {
        match HostKind::of_text(name) {
            HostKind::Name => self.of_name(name),
            HostKind::V4 | HostKind::V6 => None,
        }
    }

    /// The party of a host: its registrable domain, or its text where it has none (this profile's
    /// own). It takes no memory.
    pub fn party<'a>(&self, host: &'a Host) -> &'a [u8]
        ensures { result.now ≡ spec.party self.now host.now }
    {
        match self.registrable(host) {
            Some(domain) => domain,
            None => host.text.as_str().as_bytes(),
        }
    }

    /// Whether both hold the same set of rules, in whatever order they were read. It takes no
    /// memory.
    pub fn same(&self, other: &Suffixes) -> bool
        ensures value { result ≡ same_rules self.now other.now }
        ensures equal { IsTrue result ↔ (self.now ≡ other.now) }
    {
        self.is_within(other) && other.is_within(self)
    }

    /// The same rules.
    pub fn copy(&self, alloc: Global) -> Result<Suffixes, NoRoom>
        ensures { IfOk result (λ copy. copy ≡ self.now) }
    {
        let mut copy = Suffixes::new(alloc);
        let mut rest = self.texts.as_slice();
        let marks = self.marks.as_slice();
        for mark in marks {
            let (labels, others) = mark.split(rest);
            copy.add(labels, mark.exception)?;
            rest = others;
        }
        Ok(copy)
    }

    /// The lines of all rules in byte order, joined by LF: each rule once, with `!` in front of an
    /// exception.
    pub fn text(&self) -> Result<Bytes, NoRoom>
        ensures { IfOk result (λ text. text ≡ rules_text self.now) }
    {
        let text = text_of(self.alloc, self.texts.as_slice(), self.marks.as_slice())?;
        Ok(text)
    }

    /// The node from which all rules go on. It takes no memory.
    pub fn top(&self) -> &SuffixNode
        ensures { result.now ≡ self.now }
    {
        &self.top
    }

    fn add(&mut self, labels: &[u8], exception: bool) -> Result<(), NoRoom>
        ensures ok { OnOk result (self.new ≡ set.insert self.old (labels_in labels.now, exception)) }
        ensures err { OnErr result (self.new ≡ self.old) }
    {
        let mark = Mark::of(labels, exception)?;
        self.texts.reserve(labels.len())?;
        self.marks.reserve(1)?;
        insert(&mut self.top, self.alloc, labels, exception)?;
        self.texts.extend_from_slice(labels).unwrap();
        self.marks.push_reserved(mark);
        Ok(())
    }

    fn is_within(&self, other: &Suffixes) -> bool
        ensures { result ≡ set.is_subset self.now other.now }
    {
        are_within(self.texts.as_slice(), self.marks.as_slice(), &other.top)
    }

    // The registrable domain of a name that is no address.
    fn of_name<'a>(&self, name: &'a [u8]) -> Option<&'a [u8]>
        ensures { option_copied result ≡ option_map name_of (spec.registrable_labels self.now (labels_of name.now)) }
    {
        if has_empty_label(name) {
            return None;
        }
        one_label_more(name, suffix_len(&self.top, name))
    }
}
