//! The lines of a slice, byte for byte.
ghost use Rattle.std.specs.Prelude.{◌≡◌, ◌<◌, ◌^◌, ◌++◌, [], ◌∷◌, length, IfOk, OnOk};
ghost use Rattle.fed_script.specs.Script.{lines_of};
ghost use Rattle.fed_slice.specs.Gather.{AreThose, Gives, is_kept, is_kept_line, part_kept};
ghost use Rattle.fed_slice.specs.Lines as spec;
ghost use Rattle.fed_slice.specs.Lines.{lines_kept, text_of};
ghost use Rattle.fed_slice.specs.Linked.{is_number};

use crate::numbers::add;
use crate::part::{ScriptPart, unless};
use fed_io::{Bytes, NoRoom};
use fed_script::{Numbered, Script, next_line};
use fed_suffix::Suffixes;
use indexmap::IndexSet;
use std::alloc::Global;

// The number of the line of an event, where it is in the part.
fn line_kept(part: &ScriptPart, rules: &Suffixes, numbered: &Numbered) -> Option<u32>
    ensures { Gives (is_kept_line (part_kept rules.now part.now) numbered.now) result }
{
    unless(numbered.line, !part.has_event(rules, &numbered.event))
}

// The numbers of the lines of the events that are in the part.
fn lines_in(
    alloc: Global,
    part: &ScriptPart,
    rules: &Suffixes,
    events: &[Numbered],
) -> Result<IndexSet<u32>, NoRoom>
    ensures { IfOk result (λ lines. AreThose (is_kept (part_kept rules.now part.now) events.now) lines.keys) }
{
    let mut lines: IndexSet<u32> = IndexSet::new(alloc);
    for numbered in events {
        add(&mut lines, line_kept(part, rules, numbered))?;
    }
    Ok(lines)
}

// Puts a line and LF after the text.
fn put_line(text: &mut Vec<u8>, line: &[u8]) -> Result<(), NoRoom>
    ensures { OnOk result (text.new.items ≡ text.old.items ++ line.now ++ 10 ∷ []) }
{
    text.extend_from_slice(line)?;
    text.push(b'\n')?;
    Ok(())
}

// Puts the line after the text, where its number is one of these.
fn put_kept(
    text: &mut Vec<u8>,
    lines: &IndexSet<u32>,
    number: u32,
    line: &[u8],
) -> Result<(), NoRoom>
    ensures { OnOk result (text.new.items ≡ text.old.items ++ text_of (lines_kept (is_number lines.now.keys) number (line.now ∷ []))) }
{
    if lines.contains(&number) {
        put_line(text, line)
    } else {
        Ok(())
    }
}

// Puts those of the lines after the header whose numbers are among these.
fn put_lines(text: &mut Vec<u8>, lines: &IndexSet<u32>, bytes: &[u8]) -> Result<(), NoRoom>
    requires { length bytes.now < 2 ^ 31 }
    ensures { OnOk result (text.new.items ≡ text.old.items ++ text_of (lines_kept (is_number lines.now.keys) 2 (lines_of bytes.now))) }
{
    let mut number: u32 = 2;
    let mut rest = bytes;
    while let Some((line, further)) = next_line(rest) {
        put_kept(text, lines, number, line)?;
        rest = further;
        number += 1;
    }
    Ok(())
}

// Line 1, and of the others those whose numbers are among these, each followed by LF.
fn text_kept(alloc: Global, lines: &IndexSet<u32>, bytes: &[u8]) -> Result<Vec<u8>, NoRoom>
    requires { length bytes.now < 2 ^ 31 }
    ensures { IfOk result (λ text. text.items ≡ text_of (spec.with_header (is_number lines.now.keys) (lines_of bytes.now))) }
{
    let mut text: Vec<u8> = Vec::new(alloc);
    match next_line(bytes) {
        Some((header, further)) => {
            put_line(&mut text, header)?;
            put_lines(&mut text, lines, further)?;
            Ok(text)
        }
        None => Ok(text),
    }
}

/// The text of the slice by these parties of a script that was read from these bytes: the header's line and those of the events
/// of the slice, each byte for byte and followed by LF.
pub fn slice_text(
    alloc: Global,
    script: &Script,
    parties: &[Bytes],
    bytes: &[u8],
) -> Result<Bytes, NoRoom>
    requires { length bytes.now < 2 ^ 31 }
    ensures { IfOk result (λ text. text ≡ spec.slice_text script.now parties.now bytes.now) }
{
    let part = ScriptPart::of(alloc, script, parties)?;
    let lines = lines_in(alloc, &part, &script.header().rules, script.events())?;
    let text = text_kept(alloc, &lines, bytes)?;
    Ok(Bytes::from_vec(text))
}
