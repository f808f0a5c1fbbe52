//! URLs whose scheme is http or https, without a user.
ghost use Rattle.std.specs.Prelude.{◌≡◌, ◌↔◌, IfOk, IsTrue};
ghost use Rattle.std.specs.Option.{option_copied};
ghost use Rattle.fed_io.specs.Fault.{Answers};
ghost use Rattle.url.specs.Parts.{serialize};

use crate::layout::Layout;
use crate::plain::{read_plain, read_reference};
use crate::{Host, Origin, Scheme, UrlRefusal};
use fed_io::{Fault, NoRoom};
use std::alloc::Global;
use std::marker::Model;
use std::rc::Rc;
use url::{ParseError, Url};

/// A URL whose scheme is http or https, without a user name or password. Contracts see it as the parts that `url` gives.
/// Copies share the text, so that one takes no memory.
pub struct WebUrl {
    layout: Rc<Layout>,
}

// Written out, so that one function lets it go wherever it ends.
impl Drop for WebUrl {
    fn drop(self) {
        let WebUrl { layout: _ } = self;
    }
}

impl Model for WebUrl {
    ghost use Rattle.url.specs.Parts.{Parts, parts_code};

    ghost Value = { Parts };

    ghost coded = { parts_code };

    ghost view = { λ w. w.layout.value };
}

impl WebUrl {
    ghost use Rattle.fed_origin.specs.Origin.{same_origin};
    ghost use Rattle.fed_origin.specs.WebUrl.{web_url, web_part, joined_url, host_of, scheme_of, path_query_of, origin_of};
    ghost use Rattle.std.specs.Prelude.{Some, Ok, Option, IfSome};
    ghost use Rattle.url.specs.Parts.{Parts};
    ghost use Rattle.url.specs.Parser.{parse_url};

    /// Reads an absolute URL (URL 4.4). It is refused where it is none, then where its scheme is neither http nor https,
    /// then where it has a user name or password.
    pub fn read(alloc: Global, text: &str) -> Result<WebUrl, Fault<UrlRefusal>>
        ensures { Answers result (web_url text.now) }
    {
        if let Some(url) = WebUrl::plain(alloc, text)? {
            return Ok(url);
        }
        match Url::parse(alloc, text) {
            Ok(url) => WebUrl::of(alloc, url),
            Err(ParseError::OutOfMemory) | Err(ParseError::Overflow) => Err(Fault::NoRoom),
            Err(_) => Err(Fault::Step(UrlRefusal::NotUrl)),
        }
    }

    /// Reads a URL or a relative reference against this URL (URL 4.4). The refusals are those of
    /// `read`, in the same order.
    pub fn join(&self, alloc: Global, text: &str) -> Result<WebUrl, Fault<UrlRefusal>>
        ensures { Answers result (joined_url self.now text.now) }
    {
        if let Some(url) = WebUrl::plain(alloc, text)? {
            return Ok(url);
        }
        if let Some(url) = self.beside(alloc, text)? {
            return Ok(url);
        }
        let base = self.layout.url(alloc)?;
        match base.join(text) {
            Ok(url) => WebUrl::of(alloc, url),
            Err(ParseError::OutOfMemory) | Err(ParseError::Overflow) => Err(Fault::NoRoom),
            Err(_) => Err(Fault::Step(UrlRefusal::NotUrl)),
        }
    }

    /// Whether both URLs have the same scheme, host and port, the scheme's own port standing
    /// where none is written (HTML 7.1.1). It takes no memory.
    pub fn same_origin(&self, other: &WebUrl) -> bool
        ensures { result ≡ same_origin (origin_of self.now) (origin_of other.now) }
    {
        *self.origin() == *other.origin()
    }

    /// Whether both URLs are equal, their fragments too: they are where their serialized texts are (URL 4.6). It takes no memory.
    pub fn is_same(&self, other: &WebUrl) -> bool
        ensures { IsTrue result ↔ (self.now ≡ other.now) }
    {
        self.layout.is_same(&other.layout)
    }

    /// Whether this is the serialized text of the URL (URL 4.5). `read` and `join` take such a text as this URL, whatever it is
    /// joined to, so that it need not be read. It takes no memory.
    pub fn is_text(&self, text: &str) -> bool
        ensures same { IsTrue result ↔ (text.now ≡ serialize self.now) }
        ensures read { IsTrue result → (base : Option Parts) → web_part (parse_url base text.now) ≡ Ok self.now }
    {
        self.layout.is_text(text)
    }

    // A plain URL, which is read alike against any URL, and which spares `url`'s walk: it takes some 3,000 instructions.
    fn plain(alloc: Global, text: &str) -> Result<Option<WebUrl>, NoRoom>
        ensures { IfOk result (λ found. IfSome found (λ url. (base : Option Parts) → web_part (parse_url base text.now) ≡ Ok url)) }
    {
        match read_plain(text.as_bytes()) {
            Some(plain) => {
                let layout = Layout::of_plain(alloc, text, plain)?;
                Ok(Some(WebUrl {
                    layout: Rc::new(alloc, layout)?,
                }))
            }
            None => Ok(None),
        }
    }

    // What a path that stands alone is against this URL, which spares `url`'s walk of both.
    fn beside(&self, alloc: Global, text: &str) -> Result<Option<WebUrl>, NoRoom>
        ensures { IfOk result (λ found. IfSome found (λ url. web_part (parse_url (Some self.now) text.now) ≡ Ok url)) }
    {
        match read_reference(text.as_bytes()) {
            Some(tail) => {
                let layout = self.layout.beside(alloc, text, tail)?;
                Ok(Some(WebUrl {
                    layout: Rc::new(alloc, layout)?,
                }))
            }
            None => Ok(None),
        }
    }

    fn of(alloc: Global, url: Url) -> Result<WebUrl, Fault<UrlRefusal>>
        ensures { Answers result (web_part (Ok url)) }
    {
        let scheme = url.scheme();
        if scheme != "http" && scheme != "https" {
            return Err(Fault::Step(UrlRefusal::NotWeb));
        }
        if !url.username().is_empty() || url.password().is_some() {
            return Err(Fault::Step(UrlRefusal::HasUser));
        }
        let layout = Layout::of(alloc, url)?;
        Ok(WebUrl {
            layout: Rc::new(alloc, layout)?,
        })
    }

    /// The serialized text (URL 4.5).
    pub fn as_str(&self) -> &str
        ensures { result.now ≡ serialize self.now }
    {
        self.layout.as_str()
    }

    /// The origin (URL 4.7). It takes no memory.
    pub fn origin(&self) -> &Origin
        ensures { result.now ≡ origin_of self.now }
    {
        self.layout.origin()
    }

    /// The host. It takes no memory.
    pub fn host(&self) -> &Host
        ensures { result.now ≡ host_of self.now }
    {
        &self.origin().host
    }

    /// The scheme.
    pub fn scheme(&self) -> Scheme
        ensures { result ≡ scheme_of self.now }
    {
        self.origin().scheme
    }

    /// The port, or the scheme's own.
    pub fn port(&self) -> u16
        ensures { result ≡ (origin_of self.now).port }
    {
        self.origin().port
    }

    /// The path.
    pub fn path(&self) -> &str
        ensures { result.now ≡ self.now.path }
    {
        self.layout.path()
    }

    /// The query, without its `?`, where there is one. It takes no memory.
    pub fn query(&self) -> Option<&str>
        ensures { option_copied result ≡ self.now.query }
    {
        self.layout.query()
    }

    /// The path, and `?` with the query where there is one, without the fragment.
    pub fn path_query(&self) -> &str
        ensures { result.now ≡ path_query_of self.now }
    {
        self.layout.path_query()
    }

    /// A URL equal to this one.
    pub fn copy(&self, alloc: Global) -> Result<WebUrl, NoRoom>
        ensures { IfOk result (λ url. url ≡ self.now) }
    {
        Ok(WebUrl {
            layout: self.layout.clone()?,
        })
    }
}
