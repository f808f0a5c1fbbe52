//! The text of a URL of the web, and where its parts stand in it.
ghost use Rattle.std.specs.Prelude.{◌≡◌, ◌↔◌, Option, Some, Ok, IfOk, IsAscii, IsTrue};
ghost use Rattle.std.specs.Option.{option_copied};
ghost use Rattle.url.specs.Parser.{parse_url};
ghost use Rattle.url.specs.Parts.{Parts, serialize};
ghost use Rattle.fed_origin.specs.Plain as spec;

use crate::plain::{FRONT, Plain, Tail};
use crate::{Host, Origin, Scheme};
use fed_io::NoRoom;
use std::alloc::Global;
use std::marker::Model;
use url::{ParseError, Position, Url};

/// A URL of the web as its text, with the parts that are asked for kept beside it, so that none is looked for again. Contracts
/// see it as the parts that `url` reads in the text.
pub(crate) struct Layout {
    text: String,
    origin: Origin,
    // Before the first `/` of the path.
    path: usize,
    // Before `?`.
    query: Option<usize>,
    // Before `#`, or the end of the text.
    end: usize,
}

// Written out, so that one function lets it go wherever it ends.
impl Drop for Layout {
    fn drop(self) {
        let Layout {
            text: _,
            origin: _,
            path: _,
            query: _,
            end: _,
        } = self;
    }
}

impl Model for Layout {
    ghost use Rattle.url.specs.Parts.{Parts, parts_code};

    ghost Value = { Parts };

    ghost coded = { parts_code };

    ghost use Rattle.std.specs.Prelude.{string_bytes};
    ghost use Rattle.fed_origin.specs.Layout.{parts_of_text, IsLayout};

    ghost view = { λ l. parts_of_text (string_bytes l.text) };

    ghost invariant = { IsLayout };
}

impl Layout {
    ghost use Rattle.fed_origin.specs.WebUrl.{web_part, path_query_of, origin_of};

    /// The layout of a URL of the web that `url` read.
    pub fn of(alloc: Global, url: Url) -> Result<Layout, NoRoom>
        requires { web_part (Ok url) ≡ Ok url }
        ensures { IfOk result (λ layout. layout ≡ url) }
    {
        let scheme = scheme_of(&url);
        let host = Host::of(alloc, host_text(&url))?;
        let port = url.port().unwrap_or(scheme.own_port());
        let path = url.index(Position::BeforePath);
        let query = query_mark(&url);
        let end = url.index(Position::AfterQuery);
        let text = String::from(url);
        Ok(Layout {
            text,
            origin: Origin { scheme, host, port },
            path,
            query,
            end,
        })
    }

    /// The layout of a plain URL. It takes the parts where they stand, so that `url` need not walk the text.
    pub fn of_plain(alloc: Global, text: &str, plain: Plain<'_>) -> Result<Layout, NoRoom>
        requires { spec.IsPlain text.now plain.host.now plain.path.now (option_copied plain.query) }
        ensures { IfOk result (λ layout. layout
            ≡ spec.plain_parts plain.entry.host.now plain.entry.path.now (option_copied plain.entry.query)) }
    {
        let path = FRONT.len() + plain.host.len();
        let query = marked(plain.query, path + plain.path.len());
        let host = Host::of(alloc, &text[FRONT.len()..path])?;
        Ok(Layout {
            text: String::from_str(alloc, text)?,
            origin: Origin {
                scheme: Scheme::Https,
                host,
                port: 443,
            },
            path,
            query,
            end: text.len(),
        })
    }

    /// What a path, with a query or none, is against this URL: the URL with them. It spares `url`'s walk, too.
    pub fn beside(&self, alloc: Global, text: &str, tail: Tail<'_>) -> Result<Layout, NoRoom>
        requires { spec.IsReference text.now tail.path.now (option_copied tail.query) }
        ensures { IfOk result (λ layout. web_part (parse_url (Some self.now) text.now) ≡ Ok layout) }
    {
        let origin = self.origin.copy(alloc)?;
        let text = joined(alloc, &self.text.as_str()[..self.path], text)?;
        let query = marked(tail.query, self.path + tail.path.len());
        let end = text.as_str().len();
        Ok(Layout {
            text,
            origin,
            path: self.path,
            query,
            end,
        })
    }

    pub fn as_str(&self) -> &str
        ensures value { result.now ≡ serialize self.now }
        ensures ascii { IsAscii result.now }
    {
        self.text.as_str()
    }

    /// The same URL, read by `url` once more. No other call of a layout goes through `url`.
    pub fn url(&self, alloc: Global) -> Result<Url, NoRoom>
        ensures { IfOk result (λ url. url ≡ self.now) }
    {
        match Url::parse(alloc, self.text.as_str()) {
            Ok(url) => Ok(url),
            Err(ParseError::OutOfMemory) | Err(ParseError::Overflow) => Err(NoRoom),
            Err(_) => unreachable!(),
        }
    }

    /// Whether the texts are the same, and so the parts.
    pub fn is_same(&self, other: &Layout) -> bool
        ensures { IsTrue result ↔ (self.now ≡ other.now) }
    {
        self.text.as_str() == other.text.as_str()
    }

    /// Whether this is the text, which is then read as the URL against any other.
    pub fn is_text(&self, text: &str) -> bool
        ensures same { IsTrue result ↔ (text.now ≡ serialize self.now) }
        ensures read { IsTrue result → (base : Option Parts) → web_part (parse_url base text.now) ≡ Ok self.now }
    {
        self.text.as_str() == text
    }

    pub fn origin(&self) -> &Origin
        ensures { result.now ≡ origin_of self.now }
    {
        &self.origin
    }

    pub fn path(&self) -> &str
        ensures { result.now ≡ self.now.path }
    {
        let end = self.query.unwrap_or(self.end);
        &self.text.as_str()[self.path..end]
    }

    pub fn query(&self) -> Option<&str>
        ensures { option_copied result ≡ self.now.query }
    {
        match self.query {
            Some(mark) => Some(&self.text.as_str()[mark + 1..self.end]),
            None => None,
        }
    }

    pub fn path_query(&self) -> &str
        ensures { result.now ≡ path_query_of self.now }
    {
        &self.text.as_str()[self.path..self.end]
    }
}

ghost use Rattle.std.specs.Prelude.{◌++◌, option_map, string_bytes};
ghost use Rattle.url.specs.Parts.{offset};
ghost use Rattle.url.specs.declared.slicing.Position.TheVariants.{AfterPath};
ghost use Rattle.fed_origin.specs.WebUrl.{host_of, scheme_of};

fn scheme_of(url: &Url) -> Scheme
    ensures { result ≡ scheme_of url.now }
{
    if url.scheme() == "https" {
        Scheme::Https
    } else {
        Scheme::Http
    }
}

// Before the `?`, where there is one.
fn query_mark(url: &Url) -> Option<usize>
    ensures { result ≡ option_map (λ _. offset url.now AfterPath) url.now.query }
{
    match url.query() {
        Some(_) => Some(url.index(Position::AfterPath)),
        None => None,
    }
}

fn joined(alloc: Global, front: &str, back: &str) -> Result<String, NoRoom>
    ensures { IfOk result (λ text. string_bytes text ≡ front.now ++ back.now) }
{
    let mut text = String::with_capacity(alloc, front.len().saturating_add(back.len()))?;
    text.push_str(front)?;
    text.push_str(back)?;
    Ok(text)
}

// The place, where there is a query.
fn marked(query: Option<&[u8]>, place: usize) -> Option<usize>
    ensures { result ≡ option_map (λ _. place) (option_copied query.entry) }
{
    match query {
        Some(_) => Some(place),
        None => None,
    }
}

fn host_text(url: &Url) -> &str
    ensures value { result.now ≡ host_of url.now }
    ensures ascii { IsAscii result.now }
{
    url.slice(Position::BeforeHost, Position::AfterHost)
}
