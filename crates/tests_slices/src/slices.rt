//! Slices of short scripts.
use crate::lines::{bytes_of, lines_of};
use fed_io::Bytes;
use fed_script::{Script, read_script};
use fed_slice::{closure, in_slice, slice_text};
use std::alloc::Global;
use std::test::Fail;

// The script of a text.
fn script_of(alloc: Global, text: &str) -> Option<Script> {
    read_script(alloc, bytes_of(text)).ok()
}

// The text of the slice of a text for a party.
pub fn slice_of(alloc: Global, party: &str, text: &str) -> Option<Bytes> {
    let script = script_of(alloc, text)?;
    let parties = closure(alloc, &script, party.as_bytes()).ok()?;
    slice_text(alloc, &script, parties.as_slice(), bytes_of(text)).ok()
}

// Whether the slice of a text for a party is this.
pub fn is_slice(alloc: Global, party: &str, text: &str, slice: &str) -> bool {
    match slice_of(alloc, party, text) {
        Some(found) => found.as_slice() == slice.as_bytes(),
        None => false,
    }
}

// Whether the slice of the lines of these letters is that of those; and the slice of that again.
fn holds(alloc: Global, party: &str, letters: &str, kept: &str) -> Result<bool, Fail> {
    let text = lines_of(alloc, letters)?;
    let slice = lines_of(alloc, kept)?;
    Ok(
        is_slice(alloc, party, text.as_str(), slice.as_str())
            && is_slice(alloc, party, slice.as_str(), slice.as_str()),
    )
}

// The first row that is wrong, or "". Each row has a party, the letters of a script, and those of its slice.
fn first_wrong<'a>(alloc: Global, rows: &'a str) -> Result<&'a str, Fail> {
    for row in rows.split('\n') {
        let (party, letters) = row.split_once(" | ").ok_or("a row")?;
        let (whole, kept) = letters.split_once(" > ").ok_or("a row")?;
        if !holds(alloc, party, whole, kept)? {
            return Ok(row);
        }
    }
    Ok("")
}

// Two pages with a provider each; what pages do; a page with a later site; one provider of two pages; providers of one call; a disconnect.
fn linked() -> &'static str {
    "rp.example | HabGT > HaG
idp.example | HabGT > HaG
shop.example | HabGT > HbT
www.rp.example | HabGT > H
rp.example | HabGTefpqijuv > HaGepiu
two.example | HabGTefpqijuv > HbTfqjv
rp.example | HabcGT > HacG
other.example | HabGcT > HaGc
other.example | HabT > H
rp.example | HabGS > HabGS
two.example | HabGM > HabGM
rp.example | HabGTD > HabGTD
rp.example | HaG > HaG"
}

// Calls that begin on a page that is never loaded, that begin later, that never begin; one of a page outside.
fn named() -> &'static str {
    "idp.example | HaGPz > HaG
rp.example | HxaGx > HxaGx
rp.example | HabxyGT > HaxG
shop.example | HxyabGT > HybT
rp.example | Haxyzw > Ha
shop.example | HbDw > HbDw
rp.example | HabDw > Ha"
}

// What stands from before, of one party and of two; the time; blank lines; CR; no LF at the end; a party that nothing names.
fn kept() -> &'static str {
    "rp.example | HlmnoCEkrsabGT > HlnCkaG
shop.example | HlmnoCEkrsabGT > HmoEbT
rp.example | HBtBaB > Hta
rp.example | HtbT > Ht
nobody.example | HlkabGt > Ht
nobody.example | H > H
nobody.example | h > H
rp.example | HbAGx > HAGx"
}

#[test]
fn linked_parties(rt: HostRuntime) -> Result<(), Fail> {
    assert_eq!(rt; first_wrong(rt.alloc(), linked())?, "");
    Ok(())
}

#[test]
fn named_calls(rt: HostRuntime) -> Result<(), Fail> {
    assert_eq!(rt; first_wrong(rt.alloc(), named())?, "");
    Ok(())
}

#[test]
fn kept_lines(rt: HostRuntime) -> Result<(), Fail> {
    assert_eq!(rt; first_wrong(rt.alloc(), kept())?, "");
    Ok(())
}

// The parties of a closure.
fn parties_of(alloc: Global, party: &str, letters: &str) -> Option<String> {
    let text = lines_of(alloc, letters).ok()?;
    let script = script_of(alloc, text.as_str())?;
    let parties = closure(alloc, &script, party.as_bytes()).ok()?;
    joined(alloc, parties.as_slice())
}

// Texts, each followed by a space.
fn joined(alloc: Global, parties: &[Bytes]) -> Option<String> {
    let mut words = String::new(alloc);
    for party in parties {
        words.push_str(str::from_utf8(party.as_slice()).ok()?).ok()?;
        words.push_str(" ").ok()?;
    }
    Some(words)
}

// Of each event, + where it is in the slice for a party and - where it is not.
fn marks_of(alloc: Global, party: &str, letters: &str) -> Option<String> {
    let text = lines_of(alloc, letters).ok()?;
    let script = script_of(alloc, text.as_str())?;
    let parties = closure(alloc, &script, party.as_bytes()).ok()?;
    let inside = in_slice(alloc, &script, parties.as_slice()).ok()?;
    marks(alloc, inside.as_slice())
}

fn marks(alloc: Global, inside: &[bool]) -> Option<String> {
    let mut marks = String::new(alloc);
    for one in inside {
        marks.push_str(if *one { "+" } else { "-" }).ok()?;
    }
    Some(marks)
}

// Whether the words are these.
fn is_text(words: Option<String>, text: &str) -> bool {
    match words {
        Some(words) => words.as_str() == text,
        None => false,
    }
}

#[test]
fn closures(rt: HostRuntime) {
    assert!(rt;
        is_text(
            parties_of(rt.alloc(), "rp.example", "HabGT"),
            "idp.example rp.example "
        )
    );
    assert!(rt;
        is_text(
            parties_of(rt.alloc(), "two.example", "HacbGS"),
            "two.example "
        )
    );
    assert!(rt;
        is_text(
            parties_of(rt.alloc(), "idp.example", "HbacMG"),
            "idp.example other.example rp.example shop.example two.example ",
        )
    );
}

#[test]
fn events_in_slices(rt: HostRuntime) {
    assert!(rt;
        is_text(
            marks_of(rt.alloc(), "shop.example", "HlmBabGTxyt"),
            "-+-+-+-++"
        )
    );
}
