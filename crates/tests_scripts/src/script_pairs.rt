//! Whole scripts, and two of them.
ghost use Rattle.std.specs.Prelude.{◌<◌, ◌^◌, length};

use fed_io::Fault;
use fed_script::{bad_line_in, read_pair, read_script};
use std::alloc::{AllocError, Global};
use std::test::Fail;

// The line of a letter: a header, a load, a load without its LF, a dividing line, one with margins, one with a space in it, a
// blank line, a line that is no JSON, and one like it without its LF.
fn line_of(letter: char) -> &'static str {
    match letter {
        'H' => "{\"fedcm\":1,\"now\":7,\"rules\":\"\"}\n",
        'L' => "{\"do\":\"load\",\"page\":1,\"url\":\"https://rp.example/\"}\n",
        'l' => "{\"do\":\"load\",\"page\":1,\"url\":\"https://rp.example/\"}",
        'N' => "{\"next\":\"script\"}\n",
        'M' => " \t\r{\"next\":\"script\"}\r \t\r\n",
        'S' => "{\"next\": \"script\"}\n",
        'B' => " \t\r\n",
        'X' => "x\n",
        _ => "x",
    }
}

pub fn lines_of(alloc: Global, letters: &str) -> Result<String, AllocError> {
    let mut text = String::new(alloc);
    for letter in letters.chars() {
        text.push_str(line_of(letter))?;
    }
    Ok(text)
}

// The bytes of a text. No text of the tests is longer.
pub fn bytes_of(text: &String) -> &[u8]
    ensures few { length result.now < 2 ^ 31 }
    ensures short { length result.now < 10000 }
{
    let bytes = text.as_str().as_bytes();
    if bytes.len() < 10_000 { bytes } else { &[] }
}

// The time of a script of two events, and the numbers of their lines.
fn two_events(alloc: Global, letters: &str) -> Option<(u64, u32, u32)> {
    let text = lines_of(alloc, letters).ok()?;
    let script = read_script(alloc, bytes_of(&text)).ok()?;
    match script.events() {
        [first, second] => Some((script.header().now, first.line, second.line)),
        _ => None,
    }
}

// The bad line of a script and its word.
fn bad_line(alloc: Global, letters: &str) -> Option<(u32, &'static str)> {
    let text = lines_of(alloc, letters).ok()?;
    match read_script(alloc, bytes_of(&text)) {
        Err(Fault::Step(bad)) => Some((bad.line, bad.cause.as_str())),
        _ => None,
    }
}

// How many events each of two scripts has.
fn sizes(alloc: Global, letters: &str) -> Option<(usize, usize)> {
    let text = lines_of(alloc, letters).ok()?;
    let pair = read_pair(alloc, bytes_of(&text)).ok()?;
    Some((pair.first.events().len(), pair.second.events().len()))
}

// Where two scripts stop, and its word.
fn stop(alloc: Global, letters: &str) -> Option<(u32, &'static str)> {
    let text = lines_of(alloc, letters).ok()?;
    match read_pair(alloc, bytes_of(&text)) {
        Err(Fault::Step(stop)) => Some((stop.line, stop.cause.as_str())),
        _ => None,
    }
}

// Where two scripts stop of which these are the first bytes, and its word.
fn early_stop(alloc: Global, letters: &str) -> Option<(u32, &'static str)> {
    let text = lines_of(alloc, letters).ok()?;
    match bad_line_in(alloc, bytes_of(&text)) {
        Ok(Some(stop)) => Some((stop.line, stop.cause.as_str())),
        _ => None,
    }
}

// Where lines stop that are read as a script, as two, or as the first bytes of two.
fn stop_as(alloc: Global, form: &str, letters: &str) -> Option<(u32, &'static str)> {
    match form {
        "script" => bad_line(alloc, letters),
        "pair" => stop(alloc, letters),
        _ => early_stop(alloc, letters),
    }
}

// Whether a stop is the one of these words: the number of its line and its cause, or `none`.
fn is_stop(stop: Option<(u32, &'static str)>, words: &str) -> bool {
    match (stop, words.split_once(' ')) {
        (Some((line, cause)), Some((number, word))) => {
            cause == word && number.parse::<u32>() == Ok(line)
        }
        (None, None) => words == "none",
        _ => false,
    }
}

// The first row that is wrong, or "". Each row is a stop's words, and after a bar the letters of lines that are read in this form.
fn first_wrong_stop<'a>(alloc: Global, form: &str, rows: &'a str) -> Result<&'a str, Fail> {
    for row in rows.split('\n') {
        let (words, letters) = row.split_once(" | ").ok_or("a row")?;
        if !is_stop(stop_as(alloc, form, letters), words) {
            return Ok(row);
        }
    }
    Ok("")
}

fn bad_scripts() -> &'static str {
    "4 not-json | HLBXX
1 not-json | BHL
1 not-json | 
3 no-kind | HLN"
}

#[test]
fn scripts(rt: HostRuntime) -> Result<(), Fail> {
    assert_eq!(rt; two_events(rt.alloc(), "HLBL"), Some((7, 2, 4)));
    assert_eq!(rt; first_wrong_stop(rt.alloc(), "script", bad_scripts())?, "");
    Ok(())
}

#[test]
fn good_pairs(rt: HostRuntime) {
    assert_eq!(rt; sizes(rt.alloc(), "HLNHL"), Some((1, 1)));
    assert_eq!(rt; sizes(rt.alloc(), "HLLMH"), Some((2, 0)));
}

// First no line; then the dividing line stands first, last, twice, or nowhere; in the last three the first bad line is
// named, among all lines.
fn bad_pairs() -> &'static str {
    "1 not-json | 
1 not-json | NHL
4 not-json | HLN
4 no-kind | HNHNH
3 no-next | HL
2 no-kind | HSHL
2 not-json | HXLNX
6 not-json | HLNHLX
3 not-json | HLX"
}

// What is cut, and what is missing, may still be good.
fn first_bytes() -> &'static str {
    "3 not-json | HLXx
4 not-json | HLNXx
1 not-json | Nx
none | HLx
none | HLN
none | HL
none | HLNHL
none | "
}

#[test]
fn stops_of_pairs(rt: HostRuntime) -> Result<(), Fail> {
    assert_eq!(rt; first_wrong_stop(rt.alloc(), "pair", bad_pairs())?, "");
    assert_eq!(rt; first_wrong_stop(rt.alloc(), "first", first_bytes())?, "");
    Ok(())
}
