//! The metadata of a client.
ghost use Rattle.std.specs.Prelude.{◌≡◌, IfOk};
ghost use Rattle.fed_reply.specs.Members.{member_map};
ghost use Rattle.fed_provider.specs.Metadata as spec;

use fed_io::{Fault, NoRoom};
use fed_origin::WebUrl;
use fed_reply::{Asked, JsonBuffer, Member, ReplyMemory, read_texts};
use std::alloc::Global;

/// The links of a client's metadata (FedCM, "The client metadata endpoint").
pub struct PolicyLinks {
    /// The privacy policy.
    pub privacy: Option<WebUrl>,
    /// The terms of service.
    pub terms: Option<WebUrl>,
}

// Written out, so that one function lets it go wherever it ends.
impl Drop for PolicyLinks {
    fn drop(self) {
        let PolicyLinks {
            privacy: _,
            terms: _,
        } = self;
    }
}

impl PolicyLinks {
    /// The same links.
    pub fn copy(&self, alloc: Global) -> Result<PolicyLinks, NoRoom>
        ensures { IfOk result (λ copy. copy ≡ self.now) }
    {
        Ok(PolicyLinks {
            privacy: copy_url(alloc, &self.privacy)?,
            terms: copy_url(alloc, &self.terms)?,
        })
    }
}

// The same URL, where there is one.
pub(crate) fn copy_url(alloc: Global, url: &Option<WebUrl>) -> Result<Option<WebUrl>, NoRoom>
    ensures { IfOk result (λ copy. copy ≡ url.now) }
{
    match url {
        Some(url) => Ok(Some(url.copy(alloc)?)),
        None => Ok(None),
    }
}

/// Reads the links in a reply of the client metadata endpoint. What is not read gives no link.
pub fn read_metadata(alloc: Global, raw: &[u8]) -> Result<PolicyLinks, NoRoom>
    ensures { IfOk result (λ links. links ≡ spec.MetadataOf raw.now) }
{
    read_metadata_with(alloc, &ReplyMemory::new(), raw)
}

/// The same, where `memory` is what the reply is read from.
pub fn read_metadata_with(
    alloc: Global,
    memory: &ReplyMemory,
    raw: &[u8],
) -> Result<PolicyLinks, NoRoom>
    ensures { IfOk result (λ links. links ≡ spec.MetadataOf raw.now) }
{
    let mut buffer = memory.lend(alloc)?;
    let links = links_of_reply(alloc, raw, &mut buffer);
    memory.take_back(raw, buffer);
    links
}

// The same, with what is read from.
#[tactic(auto, unfolding(crate::specs::Metadata::MetadataOf))]
fn links_of_reply(alloc: Global, raw: &[u8], buffer: &mut JsonBuffer) -> Result<PolicyLinks, NoRoom>
    ensures { IfOk result (λ links. links ≡ spec.MetadataOf raw.now) }
{
    let mut asked = [
        Asked::new("privacy_policy_url"),
        Asked::new("terms_of_service_url"),
    ];
    match read_texts(alloc, raw, buffer, &mut asked) {
        Ok(()) => {
            let privacy = link(alloc, asked[0].found)?;
            let terms = link(alloc, asked[1].found)?;
            Ok(PolicyLinks { privacy, terms })
        }
        Err(Fault::Step(_)) => Ok(PolicyLinks {
            privacy: None,
            terms: None,
        }),
        Err(Fault::NoRoom) => Err(NoRoom),
    }
}

// The link that is found under a name: a text that is a URL.
fn link(alloc: Global, found: Member<&str>) -> Result<Option<WebUrl>, NoRoom>
    ensures { IfOk result (λ link. link ≡ spec.link_by (member_map (λ text. text.now) found.entry)) }
{
    match found {
        Member::Is(text) => url_in(alloc, text),
        Member::Absent | Member::Wrong => Ok(None),
    }
}

// The URL that a text gives.
#[tactic(auto, unfolding(crate::specs::Metadata::url_in))]
fn url_in(alloc: Global, text: &str) -> Result<Option<WebUrl>, NoRoom>
    ensures { IfOk result (λ url. url ≡ spec.url_in text.now) }
{
    match WebUrl::read(alloc, text) {
        Ok(url) => Ok(Some(url)),
        Err(Fault::Step(_)) => Ok(None),
        Err(Fault::NoRoom) => Err(NoRoom),
    }
}
