//! Lines as JSON writers give them: no white space, no escape but in the bytes of replies, and their members in the order of the
//! profile's table. They are told from others byte by byte and read at once, which spares some 2,500 instructions; each other line
//! is read by `saying`.
ghost use Rattle.std.specs.Prelude.{◌≡◌, ◌<◌, ◌+◌, ◌++◌, ℕ, List, None, Some, Ok, IfSome, IsTrue, IsUtf8, cond, decimal, length, true};
ghost use Rattle.std.specs.List.{list_all};
ghost use Rattle.fed_script.specs.declared.event.Event.TheVariants as events;
ghost use Rattle.json.specs.Print.{escape};
ghost use Rattle.json.specs.Run.{is_plain};
ghost use Rattle.fed_script.specs.Line.{event_named};
ghost use Rattle.fed_script.specs.Load.{load_by};
ghost use Rattle.fed_script.specs.Plain as spec;

use crate::disconnect::DisconnectMembers;
use crate::texts::last_text;
use fed_escape::stands_for_itself;
use fed_origin::ReplyKind;
use memchr::memchr;
use std::str;

/// What such a line says, but for loads, replies and gets.
#[derive(Clone, Copy, Drop)]
pub(crate) enum PlainLine<'a> {
    Disconnect(DisconnectMembers<'a>),
    ClosePage(u32),
    GoOn(u32),
}

/// What is left after a word.
pub(crate) fn after<'a>(rest: &'a [u8], word: &[u8]) -> Option<&'a [u8]>
    ensures { IfSome result (λ left. rest.now ≡ word.now ++ left.now) }
{
    if rest.len() < word.len() {
        return None;
    }
    let (front, left) = rest.split_at(word.len());
    if front == word { Some(left) } else { None }
}

// Nothing more where the word is all that is left.
fn end(rest: &[u8], word: &[u8]) -> Option<()>
    ensures { IfSome result (λ nothing. rest.now ≡ word.now) }
{
    if rest == word { Some(()) } else { None }
}

// The digit that a byte is.
fn digit_of(byte: u8) -> Option<u32>
    ensures { IfSome result (λ digit. (digit < 10) × (byte ≡ 48 + digit)) }
{
    if byte.is_ascii_digit() {
        Some(u32::from(byte - b'0'))
    } else {
        None
    }
}

// A number of which the first digits make this one, which is above 0, and what is left after it.
fn longer(front: u32, rest: &[u8]) -> Option<(u32, &[u8])>
    requires { 0 < front }
    ensures { IfSome result (λ found. decimal front ++ rest.now ≡ decimal found.0 ++ found.1.now) }
{
    let mut number = front;
    let mut at = 0;
    while at < rest.len() {
        let Some(digit) = digit_of(rest[at]) else {
            break;
        };
        number = number.checked_mul(10)?.checked_add(digit)?;
        at += 1;
    }
    Some((number, &rest[at..]))
}

/// A number as it is written, and what is left after it.
pub(crate) fn number(rest: &[u8]) -> Option<(u32, &[u8])>
    ensures { IfSome result (λ found. rest.now ≡ decimal found.0 ++ found.1.now) }
{
    let (first, left) = rest.split_first()?;
    let digit = digit_of(*first)?;
    if digit == 0 {
        return Some((0, left));
    }
    longer(digit, left)
}

// Where the first quote stands.
fn quote_in(rest: &[u8]) -> Option<usize>
    ensures { IfSome result (λ end. end < length rest.now) }
{
    memchr(b'"', rest)
}

// Whether all bytes stand for themselves. It looks at each, since so several are looked at at once.
fn are_plain(text: &[u8]) -> bool
    ensures { IsTrue result → list_all is_plain text.now ≡ true }
{
    let mut plain = true;
    let mut len = 0;
    while len < text.len() {
        plain = plain & stands_for_itself(text[len]);
        len += 1;
    }
    plain
}

/// The text up to the quote that ends it, and what is left from the quote on.
pub(crate) fn text(rest: &[u8]) -> Option<(&str, &[u8])>
    ensures { IfSome result (λ found. (rest.now ≡ found.0.now ++ found.1.now)
        × ((list_all is_plain found.0.now ≡ true) × IsUtf8 found.0.now)) }
{
    let (text, left) = rest.split_at(quote_in(rest)?);
    if !are_plain(text) {
        return None;
    }
    match str::from_utf8(text) {
        Ok(text) => Some((text, left)),
        Err(_) => None,
    }
}

// The page and the URL of a load, and what is left from the quote after it.
fn load_front(line: &[u8]) -> Option<(u32, &str, &[u8])>
    ensures text { IfSome result (λ found. line.now ≡ spec.load_text found.0 found.1.now found.2.now) }
    ensures plain { IfSome result (λ found. (list_all is_plain found.1.now ≡ true) × IsUtf8 found.1.now) }
{
    let rest = after(line, b"{\"do\":\"load\",\"page\":")?;
    let (page, rest) = number(rest)?;
    let rest = after(rest, b",\"url\":\"")?;
    let (url, rest) = text(rest)?;
    Some((page, url, rest))
}

/// The page of a load, its URL, and the text of its reply with its escapes, if it has one.
pub(crate) fn load_line(line: &[u8]) -> Option<(u32, &str, Option<&[u8]>)>
    ensures alone { IfSome result (λ found. found.2 ≡ None → event_named line.now ≡ load_by found.0 found.1.now None) }
    ensures reply { IfSome result (λ found. IfSome found.2 (λ escaped. (raw : List ℕ) → escaped.now ≡ escape raw → IsUtf8 raw
        → event_named line.now ≡ load_by found.0 found.1.now (Some raw))) }
{
    let (page, url, rest) = load_front(line)?;
    if rest == b"\"}".as_slice() {
        return Some((page, url, None));
    }
    let escaped = last_text(after(rest, b"\",\"text\":\"")?)?;
    Some((page, url, Some(escaped)))
}

// The provider's place, if a line names it next, and what is left after it.
fn place(rest: &[u8]) -> Option<(Option<u32>, &[u8])>
    ensures { IfSome result (λ found. rest.now ≡ spec.place_text found.0 found.1.now) }
{
    let Some(named) = after(rest, b",\"provider\":") else {
        return Some((None, rest));
    };
    let (place, left) = number(named)?;
    Some((Some(place), left))
}

// The call, the provider's place and the kind of a reply, and what is left from its text on.
fn reply_front(line: &[u8]) -> Option<(u32, Option<u32>, &str, &[u8])>
    ensures text { IfSome result (λ found. line.now ≡ spec.reply_text found.0 found.1 found.2.now found.3.now) }
    ensures plain { IfSome result (λ found. (list_all is_plain found.2.now ≡ true) × IsUtf8 found.2.now) }
{
    let rest = after(line, b"{\"do\":\"reply\",\"call\":")?;
    let (call, rest) = number(rest)?;
    let (place, rest) = place(rest)?;
    let rest = after(rest, b",\"to\":\"")?;
    let (word, rest) = text(rest)?;
    let rest = after(rest, b"\",\"text\":\"")?;
    Some((call, place, word, rest))
}

/// The call, the provider's place and the kind of a reply, and its text with its escapes.
pub(crate) fn reply_line(line: &[u8]) -> Option<(u32, u32, ReplyKind, &[u8])>
    ensures { IfSome result (λ found. (raw : List ℕ) → found.3.now ≡ escape raw → IsUtf8 raw
        → event_named line.now ≡ Ok (events.Reply found.0 found.1 found.2 raw)) }
{
    let (call, place, word, rest) = reply_front(line)?;
    let kind = ReplyKind::of_word(word)?;
    let escaped = last_text(rest)?;
    Some((call, place.unwrap_or(0), kind, escaped))
}

fn close_page_line(line: &[u8]) -> Option<u32>
    ensures { IfSome result (λ page. line.now ≡ spec.closepage_text page) }
{
    let rest = after(line, b"{\"do\":\"closepage\",\"page\":")?;
    let (page, rest) = number(rest)?;
    end(rest, b"}")?;
    Some(page)
}

fn go_on_line(line: &[u8]) -> Option<u32>
    ensures { IfSome result (λ call. line.now ≡ spec.go_on_text call) }
{
    let rest = after(line, b"{\"do\":\"continue\",\"call\":")?;
    let (call, rest) = number(rest)?;
    end(rest, b"}")?;
    Some(call)
}

// The texts of a disconnect call.
fn disconnect_texts(rest: &[u8]) -> Option<(&str, &str, &str)>
    ensures text { IfSome result (λ found. rest.now ≡ spec.disconnect_texts found.0.now found.1.now found.2.now) }
    ensures plain { IfSome result (λ found. (list_all is_plain found.0.now ≡ true)
        × ((list_all is_plain found.1.now ≡ true) × (list_all is_plain found.2.now ≡ true))) }
    ensures utf8 { IfSome result (λ found. IsUtf8 found.0.now × (IsUtf8 found.1.now × IsUtf8 found.2.now)) }
{
    let rest = after(rest, b",\"config\":\"")?;
    let (config, rest) = text(rest)?;
    let rest = after(rest, b"\",\"client\":\"")?;
    let (client, rest) = text(rest)?;
    let rest = after(rest, b"\",\"hint\":\"")?;
    let (hint, rest) = text(rest)?;
    end(rest, b"\"}")?;
    Some((config, client, hint))
}

// The page, the call, and the texts of a disconnect call.
fn disconnect_line(line: &[u8]) -> Option<(u32, u32, (&str, &str, &str))>
    ensures text { IfSome result (λ found.
        line.now ≡ spec.disconnect_text found.0 found.1 found.2.0.now found.2.1.now found.2.2.now) }
    ensures plain { IfSome result (λ found. (list_all is_plain found.2.0.now ≡ true)
        × ((list_all is_plain found.2.1.now ≡ true) × (list_all is_plain found.2.2.now ≡ true))) }
    ensures utf8 { IfSome result (λ found. IsUtf8 found.2.0.now × (IsUtf8 found.2.1.now × IsUtf8 found.2.2.now)) }
{
    let rest = after(line, b"{\"do\":\"disconnect\",\"page\":")?;
    let (page, rest) = number(rest)?;
    let rest = after(rest, b",\"call\":")?;
    let (call, rest) = number(rest)?;
    let texts = disconnect_texts(rest)?;
    Some((page, call, texts))
}

/// What a line of another kind says that JSON writers give so; None where it is another line.
#[tactic(auto, using(crate::proofs::plainly::Events::disconnect_event, crate::proofs::plainly::Events::closepage_event, crate::proofs::plainly::Events::go_on_event))]
pub(crate) fn plain_line(line: &[u8]) -> Option<PlainLine<'_>>
    ensures { IfSome result (λ said. event_named line.now ≡ spec.event_by said) }
{
    match line.get(7) {
        Some(b'd') => {
            let (page, call, (config, client, hint)) = disconnect_line(line)?;
            Some(PlainLine::Disconnect(DisconnectMembers {
                page,
                call,
                config,
                client,
                hint,
            }))
        }
        Some(b'c') => match close_page_line(line) {
            Some(page) => Some(PlainLine::ClosePage(page)),
            None => Some(PlainLine::GoOn(go_on_line(line)?)),
        },
        _ => None,
    }
}
