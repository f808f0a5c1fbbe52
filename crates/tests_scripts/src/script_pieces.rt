//! Scripts that come in pieces.
ghost use Rattle.std.specs.Prelude.{◌<◌, length};

use crate::script_pairs::{bytes_of, lines_of};
use fed_script::Line;
use std::alloc::{AllocError, Global};
use std::test::Fail;
use tests_callers::scripts::read_both;

// The word of a line, and its number.
fn word_of(line: &Line) -> (&'static str, u32) {
    match line {
        Line::Blank(number) => ("blank", *number),
        Line::Head(number, _) => ("head", *number),
        Line::Event(number, _) => ("event", *number),
        Line::Bad(number, cause) => (cause.as_str(), *number),
    }
}

// The words of lines after a mark, each with a space before it.
fn push_words(
    alloc: Global,
    mark: &str,
    lines: &[Line],
    text: &mut String,
) -> Result<(), AllocError> {
    text.push_str(mark)?;
    for line in lines {
        let (word, number) = word_of(line);
        let part = format!(in alloc; " {word}{number}")?;
        text.push_str(part.as_str())?;
    }
    Ok(())
}

// The words of the lines of a script that is cut at this place, with a mark before those of its pieces and of its end.
fn words_at(alloc: Global, mark: &str, bytes: &[u8], place: usize) -> Option<String>
    requires { length bytes.now < 10000 }
{
    let (first, second) = bytes.split_at(place.min(bytes.len()));
    let (head, further, last) = read_both(alloc, first, second).ok()?;
    let mut text = String::new(alloc);
    push_words(alloc, mark, head.as_slice(), &mut text).ok()?;
    push_words(alloc, mark, further.as_slice(), &mut text).ok()?;
    push_words(alloc, mark, last.as_slice(), &mut text).ok()?;
    Some(text)
}

// Whether the lines of a script have these words, wherever it is cut.
fn has_words(alloc: Global, bytes: &[u8], words: &str) -> bool
    requires { length bytes.now < 10000 }
{
    for place in 0..bytes.len() + 1 {
        if !is_text(words_at(alloc, "", bytes, place), words) {
            return false;
        }
    }
    true
}

fn is_text(text: Option<String>, words: &str) -> bool {
    match text {
        Some(text) => text.as_str() == words,
        None => false,
    }
}

// The same of the lines of these letters.
fn is_read(alloc: Global, letters: &str, words: &str) -> bool {
    match lines_of(alloc, letters) {
        Ok(text) => has_words(alloc, bytes_of(&text), words),
        Err(_) => false,
    }
}

// The first row that is wrong, or "". Each row has the words of lines, and after a bar the letters of the script.
fn first_wrong<'a>(alloc: Global, rows: &'a str) -> Result<&'a str, Fail> {
    for row in rows.split('\n') {
        let (words, letters) = row.split_once(" | ").ok_or("a row")?;
        if !is_read(alloc, letters, words) {
            return Ok(row);
        }
    }
    Ok("")
}

// Good lines, a last one without its LF, no line at all, and a bad line between good ones.
fn scripts() -> &'static str {
    " head1 event2 blank3 event4 | HLBL
 head1 event2 event3 | HLl
 head1 event2 not-json3 | HLx
 head1 | H
 head1 blank2 blank3 | HBB
 not-json1 | 
 not-json1 | BHL
 head1 not-json2 | HXLL
 head1 event2 no-kind3 | HLNHL"
}

#[test]
fn lines_in_pieces(rt: HostRuntime) -> Result<(), Fail> {
    assert_eq!(rt; first_wrong(rt.alloc(), scripts())?, "");
    Ok(())
}

// What is given of a script that is cut at this place, by its first piece, by the second and at the end.
fn is_given(alloc: Global, letters: &str, place: usize, words: &str) -> bool {
    match lines_of(alloc, letters) {
        Ok(text) => is_text(words_at(alloc, "/", bytes_of(&text), place), words),
        Err(_) => false,
    }
}

// The header has 30 bytes and its LF.
#[test]
fn lines_as_they_end(rt: HostRuntime) {
    let alloc = rt.alloc();
    assert!(rt; is_given(alloc, "HLl", 0, "// head1 event2/ event3"));
    assert!(rt; is_given(alloc, "HLl", 30, "// head1 event2/ event3"));
    assert!(rt; is_given(alloc, "HLl", 31, "/ head1/ event2/ event3"));
    assert!(rt; is_given(alloc, "HLl", 40, "/ head1/ event2/ event3"));
    assert!(rt; is_given(alloc, "HLl", 1000, "/ head1 event2// event3"));
    assert!(rt; is_given(alloc, "HXl", 33, "/ head1 not-json2//"));
    assert!(rt; is_given(alloc, "", 0, "/// not-json1"));
}
