//! The configuration URLs of lines.
ghost use Rattle.std.specs.Prelude.{◌≡◌, IfSome, Ok};
ghost use Rattle.fed_io.specs.Fault.{Answers};
ghost use Rattle.fed_script.specs.Member as spec;

use crate::cause::LineCause;
use crate::member::web_url;
use fed_io::{Fault, NoRoom};
use fed_origin::{SLOTS, WebUrl, slot_of};
use std::alloc::Global;

// The most bytes of a URL that is kept.
const MOST_BYTES: usize = 2048;

/// Configuration URLs that were read, so that calls which name one share its text: that spares some 1,200 instructions, and the memory
/// of a text. At most 256 URLs are kept, of at most 2,048 bytes, each at the place of its text; one that comes later takes the place.
pub(crate) struct KeptConfigs {
    // None before the first URL is kept.
    urls: Vec<Option<WebUrl>>,
    // The place that was looked at last, where a look begins.
    last: usize,
}

// Written out, so that one function lets them go wherever they end.
impl Drop for KeptConfigs {
    fn drop(self) {
        let KeptConfigs { urls: _, last: _ } = self;
    }
}

impl KeptConfigs {
    /// None was read. It takes no memory.
    pub(crate) fn none(alloc: Global) -> KeptConfigs {
        KeptConfigs {
            urls: Vec::new(alloc),
            last: 0,
        }
    }

    /// The URL of a text; BadUrl where there is none.
    pub(crate) fn read(&mut self, alloc: Global, text: &str) -> Result<WebUrl, Fault<LineCause>>
        ensures { Answers result (spec.url_of text.now) }
    {
        if let Some(url) = self.at(self.last, text) {
            return Ok(url.copy(alloc)?);
        }
        self.last = slot_of(text);
        if let Some(url) = self.at(self.last, text) {
            return Ok(url.copy(alloc)?);
        }
        let url = web_url(alloc, text)?;
        self.keep(alloc, text, &url)?;
        Ok(url)
    }

    // The URL with this text, where it is kept at this place.
    fn at(&self, place: usize, text: &str) -> Option<&WebUrl>
        ensures { IfSome result (λ url. spec.url_of text.now ≡ Ok url.now) }
    {
        match self.urls.get(place) {
            Some(Some(url)) if url.is_text(text) => Some(url),
            _ => None,
        }
    }

    // Keeps the URL.
    fn keep(&mut self, alloc: Global, text: &str, url: &WebUrl) -> Result<(), NoRoom> {
        if text.len() > MOST_BYTES {
            return Ok(());
        }
        if self.urls.is_empty() {
            self.urls = no_urls(alloc)?;
        }
        let place = self.last;
        if place < self.urls.len() {
            self.urls[place] = Some(url.copy(alloc)?);
        }
        Ok(())
    }
}

// No URLs, at all places.
fn no_urls(alloc: Global) -> Result<Vec<Option<WebUrl>>, NoRoom> {
    let mut urls = Vec::with_capacity(alloc, SLOTS)?;
    for _ in 0..SLOTS {
        urls.push(None)?;
    }
    Ok(urls)
}
