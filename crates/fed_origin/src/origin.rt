//! Origins.
ghost use Rattle.std.specs.Prelude.{◌≡◌, ◌++◌, codes, decimal, IfOk, OnOk};
ghost use Rattle.fed_origin.specs.Host as spec;
ghost use Rattle.std.proofs.Common.{rules};
ghost use Rattle.std.specs.Cmp.Rules.{comparing};

use crate::{Host, HostKind, Scheme, WebUrl};
use fed_io::{NoRoom, SharedValue, Text};
use itoa::Buffer;
use std::alloc::Global;

/// A tuple origin: scheme, host and port (HTML 7.1.1).
#[derive(Eq, PartialOrd, Ord, Hash)]
pub struct Origin {
    pub scheme: Scheme,
    pub host: Host,
    pub port: u16,
}

// Written out, so that one function lets it go wherever it ends.
impl Drop for Origin {
    fn drop(self) {
        let Origin {
            scheme: _,
            host: _,
            port: _,
        } = self;
    }
}

/// An origin that its copies share.
pub type SharedOrigin = SharedValue<Origin>;

impl PartialEq for Origin {
    ghost use Rattle.fed_origin.specs.Origin.{same_origin};

    ghost eq = { same_origin };

    ghost laws = { Prim.search (comparing, rules) };

    fn eq(&self, other: &Origin) -> bool {
        self.scheme == other.scheme && self.host == other.host && self.port == other.port
    }
}

impl Origin {
    ghost use Rattle.fed_origin.specs.Origin.{origin_text, is_trustworthy};
    ghost use Rattle.fed_origin.specs.WebUrl.{origin_of};

    /// The origin of a URL (URL 4.7).
    pub fn of_url(alloc: Global, url: &WebUrl) -> Result<Origin, NoRoom>
        ensures { IfOk result (λ origin. origin ≡ origin_of url.now) }
    {
        url.origin().copy(alloc)
    }

    /// An origin equal to this one.
    pub fn copy(&self, alloc: Global) -> Result<Origin, NoRoom>
        ensures { IfOk result (λ origin. origin ≡ self.now) }
    {
        Ok(Origin {
            scheme: self.scheme,
            host: self.host.copy(alloc)?,
            port: self.port,
        })
    }

    /// The text `scheme://host`, and `:port` where the port is not the scheme's own (HTML 7.1.1).
    pub fn serialize(&self, alloc: Global) -> Result<Text, NoRoom>
        ensures { IfOk result (λ text. text ≡ origin_text self.now) }
    {
        let scheme = self.scheme.as_str();
        let host = self.host.text.as_str();
        let port = self.port;
        if port == self.scheme.own_port() {
            let text = format!(in alloc; "{scheme}://{host}")?;
            return Text::of(alloc, text.as_str());
        }
        let text = format!(in alloc; "{scheme}://{host}:{port}")?;
        Text::of(alloc, text.as_str())
    }

    /// Adds the text of the origin, as `serialize` gives it, without a text that goes at once.
    #[tactic(auto, using(std::proofs::Common::append_assoc))]
    pub fn push_to(&self, bytes: &mut Vec<u8>) -> Result<(), NoRoom>
        ensures { OnOk result (bytes.new.items ≡ bytes.old.items ++ origin_text self.now) }
    {
        bytes.extend_from_slice(self.scheme.as_str().as_bytes())?;
        bytes.extend_from_slice(b"://")?;
        bytes.extend_from_slice(self.host.text.as_str().as_bytes())?;
        if self.port == self.scheme.own_port() {
            return Ok(());
        }
        push_port(bytes, self.port)
    }

    /// Whether a page of this origin is a secure context: over https, or over http on a loopback
    /// host (Secure Contexts 3.1). It takes no memory.
    pub fn is_trustworthy(&self) -> bool
        ensures { result ≡ is_trustworthy self.now }
    {
        match self.scheme {
            Scheme::Https => true,
            Scheme::Http => is_loopback(&self.host),
        }
    }
}

#[tactic(auto, using(std::proofs::Common::append_assoc))]
fn push_port(bytes: &mut Vec<u8>, port: u16) -> Result<(), NoRoom>
    ensures { OnOk result (bytes.new.items ≡ bytes.old.items ++ (codes ":" ++ decimal port)) }
{
    let mut buffer = Buffer::new();
    bytes.extend_from_slice(b":")?;
    bytes.extend_from_slice(buffer.format(port).as_bytes())?;
    Ok(())
}

// Whether the host means this machine itself.
fn is_loopback(host: &Host) -> bool
    ensures { result ≡ spec.is_loopback host.now }
{
    let text = host.text.as_str();
    match host.kind {
        HostKind::Name => is_local_name(text),
        HostKind::V4 => text.as_bytes().starts_with(b"127."),
        HostKind::V6 => text == "[::1]",
    }
}

// Whether the name is `localhost` or stands below it, with or without a dot at the end.
fn is_local_name(name: &str) -> bool
    ensures { result ≡ spec.is_local_name name.now }
{
    name == "localhost"
        || name == "localhost."
        || name.as_bytes().ends_with(b".localhost")
        || name.as_bytes().ends_with(b".localhost.")
}
