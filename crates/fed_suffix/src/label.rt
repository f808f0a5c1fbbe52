//! The labels of a name, from the right.
ghost use Rattle.std.specs.Prelude.{◌≡◌, ◌+◌, ◌<◌, ◌∷◌, length, take, option_map, IfOk, Some, None, nat_lt, if◌then◌else◌};
ghost use Rattle.std.specs.List.{list_any};
ghost use Rattle.std.specs.Option.{option_copied};
ghost use Rattle.fed_suffix.specs.Label.{labels_of, labels_before, labels_in, labels_after, joined, name_of, is_empty};
ghost use Rattle.fed_suffix.specs.Label.{is_label as is_one_label, ascii_labels, AddsLabel};

use fed_io::{Bytes, NoRoom};
use idna::{AsciiDenyList, Errors, domain_to_ascii_cow};
use std::alloc::Global;

/// The last label of a text, and what stands before its dot.
#[derive(Clone, Copy)]
pub struct LastLabel<'a> {
    pub before: Option<&'a [u8]>,
    pub label: &'a [u8],
}

pub fn last_label(text: &[u8]) -> LastLabel<'_>
    ensures labels { labels_of text.now ≡ result.label.now ∷ labels_before (option_copied result.before) }
    ensures text { text.now ≡ joined (option_copied result.before) result.label.now }
{
    match text.iter().rposition(|b| *b == b'.') {
        Some(dot) => LastLabel {
            before: Some(&text[..dot]),
            label: &text[dot + 1..],
        },
        None => LastLabel {
            before: None,
            label: text,
        },
    }
}

/// The first label of a rule's text, and what stands behind its dot.
#[derive(Clone, Copy)]
pub struct FirstLabel<'a> {
    pub label: &'a [u8],
    pub after: Option<&'a [u8]>,
}

pub fn first_label(text: &[u8]) -> FirstLabel<'_>
    ensures { labels_in text.now ≡ result.label.now ∷ labels_after (option_copied result.after) }
{
    match text.iter().position(|b| *b == b'.') {
        Some(dot) => FirstLabel {
            label: &text[..dot],
            after: Some(&text[dot + 1..]),
        },
        None => FirstLabel {
            label: text,
            after: None,
        },
    }
}

pub fn has_empty_label(name: &[u8]) -> bool
    ensures { result ≡ list_any is_empty (labels_of name.now) }
{
    name.split(|b| *b == b'.').any(|label| label.is_empty())
}

/// The last `count` labels and one more, or `None` where there are no more.
pub fn one_label_more(name: &[u8], count: usize) -> Option<&[u8]>
    ensures { option_copied result ≡ (if nat_lt count (length (labels_of name.now))
        then Some (name_of (take (count + 1) (labels_of name.now)))
        else None) }
{
    let mut rest = name;
    for _ in 0..count {
        rest = last_label(rest).before?;
    }
    let last = last_label(rest);
    let start = rest.len() - last.label.len();
    Some(&name[start..])
}

fn is_label(text: &[u8]) -> bool
    ensures { result ≡ is_one_label text.now }
{
    !text.is_empty() && !text.contains(&b'.')
}

// Adds the label in ASCII form to a text, and says whether it has one.
fn push_ascii(alloc: Global, label: &[u8], text: &mut Vec<u8>) -> Result<bool, NoRoom>
    ensures { IfOk result (AddsLabel label.now text.old.items text.new.items) }
{
    let ascii = match domain_to_ascii_cow(alloc, label, AsciiDenyList::URL) {
        Ok(ascii) => ascii,
        Err(Errors::OutOfMemory) => return Err(NoRoom),
        Err(Errors::Invalid) => return Ok(false),
    };
    let ascii = ascii.as_bytes();
    if !is_label(ascii) {
        return Ok(false);
    }
    text.extend_from_slice(ascii)?;
    Ok(true)
}

/// The labels of a text in ASCII form, from the right, in one text with dots between them, or `None`
/// where one has none.
pub fn read_labels(alloc: Global, text: &[u8]) -> Result<Option<Bytes>, NoRoom>
    ensures { IfOk result (λ labels. option_map labels_in labels ≡ ascii_labels (labels_of text.now)) }
{
    let mut labels = Vec::new(alloc);
    let last = last_label(text);
    if !push_ascii(alloc, last.label, &mut labels)? {
        return Ok(None);
    }
    let mut rest = last.before;
    while let Some(text) = rest {
        let last = last_label(text);
        labels.push(b'.')?;
        if !push_ascii(alloc, last.label, &mut labels)? {
            return Ok(None);
        }
        rest = last.before;
    }
    Ok(Some(Bytes::from_vec(labels)))
}
