//! The text of rules.
ghost use Rattle.std.specs.Prelude.{◌≡◌, ◌++◌, IfOk, length, map};
ghost use Rattle.std.specs.List.{join_with_byte};
ghost use Rattle.fed_suffix.specs.Label.{labels_in, name_of};
ghost use Rattle.fed_suffix.specs.Packed.{texts_len, rules_in};
ghost use Rattle.fed_suffix.specs.RulesText.{rule_mark, rule_line, in_order, lines_text};

use crate::label::last_label;
use crate::rule::Mark;
use fed_io::{Bytes, NoRoom};
use std::alloc::Global;
use std::collections::BTreeSet;

// What stands in front of a rule.
fn mark_of(alloc: Global, exception: bool) -> Result<Vec<u8>, NoRoom>
    ensures { IfOk result (λ mark. mark.items ≡ rule_mark exception) }
{
    if exception {
        return Ok(b"!".to_vec(alloc)?);
    }
    Ok(Vec::new(alloc))
}

// The line of a rule of which the labels are given from the right, with dots between them.
fn line_of(alloc: Global, labels: &[u8], exception: bool) -> Result<Bytes, NoRoom>
    ensures { IfOk result (λ line. line ≡ rule_mark exception ++ name_of (labels_in labels.now)) }
{
    let mut line = mark_of(alloc, exception)?;
    let last = last_label(labels);
    line.extend_from_slice(last.label)?;
    let mut rest = last.before;
    while let Some(text) = rest {
        let last = last_label(text);
        line.push(b'.')?;
        line.extend_from_slice(last.label)?;
        rest = last.before;
    }
    Ok(Bytes::from_vec(line))
}

// The lines of a list of rules, each once.
fn lines_of(alloc: Global, texts: &[u8], marks: &[Mark]) -> Result<BTreeSet<(Bytes, bool)>, NoRoom>
    requires { texts_len marks.now ≡ length texts.now }
    ensures { IfOk result (λ lines. lines.keys ≡ in_order (map rule_line (rules_in texts.now marks.now))) }
{
    let mut lines = BTreeSet::new(alloc);
    let mut rest = texts;
    for mark in marks {
        let (labels, others) = mark.split(rest);
        let line = line_of(alloc, labels, mark.exception)?;
        lines.insert((line, mark.exception))?;
        rest = others;
    }
    Ok(lines)
}

// The texts of lines, joined by LF.
fn joined(alloc: Global, mut lines: BTreeSet<(Bytes, bool)>) -> Result<Bytes, NoRoom>
    ensures { IfOk result (λ text. text ≡ join_with_byte 10 (map (λ line. line.0) lines.keys)) }
{
    let mut text = Vec::new(alloc);
    while let Some(line) = lines.pop_first() {
        text.extend_from_slice(line.0.as_slice())?;
        text.push(b'\n')?;
    }
    let end = text.as_slice().len();
    text.truncate(end.saturating_sub(1));
    Ok(Bytes::from_vec(text))
}

/// The lines of a list of rules in byte order, joined by LF, each rule once.
#[tactic(auto, unfolding(crate::specs::RulesText::lines_text))]
pub fn text_of(alloc: Global, texts: &[u8], marks: &[Mark]) -> Result<Bytes, NoRoom>
    requires { texts_len marks.now ≡ length texts.now }
    ensures { IfOk result (λ text. text ≡ lines_text (rules_in texts.now marks.now)) }
{
    let lines = lines_of(alloc, texts, marks)?;
    joined(alloc, lines)
}
