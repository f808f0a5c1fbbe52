//! Rules, and the lines that hold them.
ghost use Rattle.std.specs.Prelude.{◌≡◌, ◌≤◌, IfOk, length, take, drop, position, ◌||◌, ◌==◌};
ghost use Rattle.std.specs.List.{list_all};
ghost use Rattle.std.specs.FinSet as set;
ghost use Rattle.fed_suffix.specs.Label.{labels_in};
ghost use Rattle.fed_suffix.specs.Packed.{texts_len, rules_in};
ghost use Rattle.fed_suffix.specs.RuleLine as spec;

use crate::SuffixNode;
use crate::label::{first_label, read_labels};
use crate::walk::has_rule;
use fed_io::{Bytes, NoRoom};
use std::alloc::Global;
use std::marker::Model;

/// A rule.
#[derive(Drop)]
pub struct Rule {
    // Its labels in ASCII form, from the right, with dots between them.
    labels: Bytes,
    exception: bool,
}

impl Model for Rule {
    ghost use Rattle.fed_suffix.specs.Rule.{Rule as Value_, rule_code};

    ghost Value = { Value_ };

    ghost coded = { rule_code };

    ghost use Rattle.fed_suffix.specs.Label.{labels_in};

    ghost view = { λ rule. (labels_in rule.labels, rule.exception) };
}

impl Rule {
    /// Its labels, from the right, with dots between them.
    pub fn labels(&self) -> &[u8]
        ensures { labels_in result.now ≡ self.now.0 }
    {
        self.labels.as_slice()
    }

    pub fn is_exception(&self) -> bool
        ensures { result ≡ self.now.1 }
    {
        self.exception
    }
}

/// What a list of rules keeps of a rule beside its labels.
#[derive(Clone, Copy)]
pub struct Mark {
    // How many bytes the labels take.
    len: u32,
    pub exception: bool,
}

impl Mark {
    /// The mark of a rule. It is want of memory too where the labels have 2^32 bytes.
    pub fn of(labels: &[u8], exception: bool) -> Result<Mark, NoRoom>
        ensures len { IfOk result (λ mark. mark.len ≡ length labels.now) }
        ensures exception { IfOk result (λ mark. mark.exception ≡ exception) }
    {
        let len = u32::try_from(labels.len()).map_err(|_| NoRoom)?;
        Ok(Mark { len, exception })
    }

    /// The labels of this first rule of a list, and those of the others.
    pub fn split<'a>(&self, texts: &'a [u8]) -> (&'a [u8], &'a [u8])
        requires { self.now.len ≤ length texts.now }
        ensures labels { result.0.now ≡ take self.now.len texts.now }
        ensures others { result.1.now ≡ drop self.now.len texts.now }
    {
        texts.split_at(self.len as usize)
    }
}

/// Whether the tree has each rule of a list.
pub fn are_within(texts: &[u8], marks: &[Mark], top: &SuffixNode) -> bool
    requires { texts_len marks.now ≡ length texts.now }
    ensures { result ≡ list_all (set.contains top.now) (rules_in texts.now marks.now) }
{
    let mut rest = texts;
    for mark in marks {
        let (labels, others) = mark.split(rest);
        if !has_rule(top, labels, mark.exception) {
            return false;
        }
        rest = others;
    }
    true
}

fn first_blank(line: &[u8]) -> Option<usize>
    ensures { result ≡ position spec.is_blank line.now }
{
    line.iter()
        .position(|b| *b == b' ' || *b == b'\t' || *b == b'\r')
}

/// The part of a line up to the first space, tab or carriage return.
pub fn rule_text(line: &[u8]) -> &[u8]
    ensures { result.now ≡ spec.rule_text line.now }
{
    match first_blank(line) {
        Some(end) => &line[..end],
        None => line,
    }
}

/// Whether the part holds no rule: it is empty or a comment.
pub fn is_skipped(text: &[u8]) -> bool
    ensures { result ≡ spec.is_skipped text.now }
{
    text.is_empty() || text.starts_with(b"//")
}

/// The rule of a text, or `None` where it is none.
pub fn read_rule(alloc: Global, text: &[u8]) -> Result<Option<Rule>, NoRoom>
    ensures { IfOk result (λ rule. rule ≡ spec.rule_of text.now) }
{
    if text.first() == Some(&b'!') {
        read_exception(alloc, &text[1..])
    } else {
        read_plain(alloc, text)
    }
}

fn read_plain(alloc: Global, text: &[u8]) -> Result<Option<Rule>, NoRoom>
    ensures { IfOk result (λ rule. rule ≡ spec.plain_rule text.now) }
{
    match read_labels(alloc, text)? {
        Some(labels) => Ok(Some(Rule {
            labels,
            exception: false,
        })),
        None => Ok(None),
    }
}

fn read_exception(alloc: Global, text: &[u8]) -> Result<Option<Rule>, NoRoom>
    ensures { IfOk result (λ rule. rule ≡ spec.exception_rule text.now) }
{
    match read_labels(alloc, text)? {
        Some(labels) => {
            if first_label(labels.as_slice()).after.is_none() {
                return Ok(None);
            }
            Ok(Some(Rule {
                labels,
                exception: true,
            }))
        }
        None => Ok(None),
    }
}
