//! Scripts of lines that have letters.
ghost use Rattle.std.specs.Prelude.{◌<◌, ◌^◌, length};

use std::alloc::{AllocError, Global};

// The lines that name a page: loads of pages 1 and 2 at two sites, of page 1 at a third, with a CR and without LF; what else pages do.
fn page_line(letter: char) -> &'static str {
    match letter {
        'a' => "{\"do\":\"load\",\"page\":1,\"url\":\"https://www.rp.example/\"}\n",
        'b' => "{\"do\":\"load\",\"page\":2,\"url\":\"https://shop.example/\"}\n",
        'c' => "{\"do\":\"load\",\"page\":1,\"url\":\"https://other.example/\"}\n",
        'A' => "{\"do\":\"load\",\"page\":1,\"url\":\"https://www.rp.example/\"}\r\n",
        'e' => "{\"do\":\"closepage\",\"page\":1}\n",
        'f' => "{\"do\":\"closepage\",\"page\":2}\n",
        'p' => "{\"do\":\"prevent\",\"page\":1}\n",
        'q' => "{\"do\":\"prevent\",\"page\":2}\n",
        'i' => "{\"do\":\"idpclose\",\"page\":1}\n",
        'j' => "{\"do\":\"idpclose\",\"page\":2}\n",
        'u' => "{\"do\":\"setstatus\",\"page\":1,\"status\":\"logged-in\"}\n",
        'v' => "{\"do\":\"setstatus\",\"page\":2,\"status\":\"logged-in\"}\n",
        _ => call_line(letter),
    }
}

// Those that begin a call: page 1 with one provider, page 2 with another, with the same, with both; page 3; a disconnect of page 2 at
// the provider of page 1; and those that name call 1 or 2 alone.
fn call_line(letter: char) -> &'static str {
    match letter {
        'G' => {
            "{\"do\":\"get\",\"page\":1,\"call\":1,\"providers\":[{\"config\":\"https://accounts.idp.example/f\",\"client\":\"c\"}]}\n"
        }
        'T' => {
            "{\"do\":\"get\",\"page\":2,\"call\":2,\"providers\":[{\"config\":\"https://login.two.example/f\",\"client\":\"c\"}]}\n"
        }
        'S' => {
            "{\"do\":\"get\",\"page\":2,\"call\":2,\"providers\":[{\"config\":\"https://idp.example/f\",\"client\":\"c\"}]}\n"
        }
        'M' => {
            "{\"do\":\"get\",\"page\":2,\"call\":3,\"providers\":[{\"config\":\"https://login.two.example/f\",\"client\":\"c\"},{\"config\":\"https://idp.example/f\",\"client\":\"c\"}]}\n"
        }
        'P' => {
            "{\"do\":\"get\",\"page\":3,\"call\":4,\"providers\":[{\"config\":\"https://idp.example/f\",\"client\":\"c\"}]}\n"
        }
        'D' => {
            "{\"do\":\"disconnect\",\"page\":2,\"call\":5,\"config\":\"https://idp.example/f\",\"client\":\"c\",\"hint\":\"u\"}\n"
        }
        'x' => "{\"do\":\"abort\",\"call\":1}\n",
        'y' => "{\"do\":\"choose\",\"call\":2,\"provider\":0,\"account\":\"u\"}\n",
        'z' => "{\"do\":\"reply\",\"call\":4,\"to\":\"config\",\"text\":\"\"}\n",
        'w' => "{\"do\":\"reply\",\"call\":5,\"to\":\"config\",\"text\":\"\"}\n",
        _ => "",
    }
}

// The header, the time, a blank line, and what stands from before: statuses, flags, cookies, and permissions of both parties of call 1,
// of one of them, and of the other.
fn line_of(letter: char) -> &'static str {
    match letter {
        'H' => "{\"fedcm\":1,\"now\":7,\"rules\":\"\"}\n",
        'h' => "{\"fedcm\":1,\"now\":7,\"rules\":\"\"}",
        't' => "{\"do\":\"at\",\"time\":9}\n",
        'B' => " \t\r\n",
        'l' =>
            "{\"do\":\"have\",\"what\":\"login\",\"origin\":\"https://idp.example\",\"status\":\"logged-in\"}\n",
        'm' =>
            "{\"do\":\"have\",\"what\":\"login\",\"origin\":\"https://two.example\",\"status\":\"logged-in\"}\n",
        'n' => "{\"do\":\"have\",\"what\":\"silent\",\"origin\":\"https://rp.example\"}\n",
        'o' => "{\"do\":\"have\",\"what\":\"silent\",\"origin\":\"https://shop.example\"}\n",
        'C' =>
            "{\"do\":\"have\",\"what\":\"cookie\",\"url\":\"https://idp.example/\",\"text\":\"a=b\"}\n",
        'E' =>
            "{\"do\":\"have\",\"what\":\"cookie\",\"url\":\"https://two.example/\",\"text\":\"a=b\"}\n",
        'k' => {
            "{\"do\":\"have\",\"what\":\"kept\",\"page\":\"https://rp.example\",\"provider\":\"https://idp.example\",\"account\":\"u\"}\n"
        }
        'r' => {
            "{\"do\":\"have\",\"what\":\"kept\",\"page\":\"https://shop.example\",\"provider\":\"https://idp.example\",\"account\":\"u\"}\n"
        }
        's' => {
            "{\"do\":\"have\",\"what\":\"kept\",\"page\":\"https://rp.example\",\"provider\":\"https://two.example\",\"account\":\"u\"}\n"
        }
        _ => page_line(letter),
    }
}

/// The lines of these letters.
pub fn lines_of(alloc: Global, letters: &str) -> Result<String, AllocError> {
    let mut text = String::new(alloc);
    for letter in letters.chars() {
        text.push_str(line_of(letter))?;
    }
    Ok(text)
}

/// The bytes of a text. No text of the tests is longer.
pub fn bytes_of(text: &str) -> &[u8]
    ensures { length result.now < 2 ^ 31 }
{
    let bytes = text.as_bytes();
    if bytes.len() < 10_000 { bytes } else { &[] }
}
