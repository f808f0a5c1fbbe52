//! What the lines of a script are read as.
ghost use Rattle.std.specs.Prelude.{◌≡◌, IfOk};
ghost use Rattle.fed_script.specs.Reader.{header_in};

use crate::cause::LineCause;
use fed_io::{Bytes, NoRoom, Placed, Text};
use fed_origin::{GetOptions, LoginStatus, Origin, ReplyKind, Triple, WebUrl};
use fed_suffix::Suffixes;
use std::alloc::Global;

/// The first line of a script.
#[derive(Drop)]
pub struct Header {
    /// The public suffix rules of the script.
    pub rules: Suffixes,
    /// The time at which the script begins, in seconds since 1970.
    pub now: u64,
}

impl Header {
    /// The same header.
    pub fn copy(&self, alloc: Global) -> Result<Header, NoRoom>
        ensures { IfOk result (λ copy. copy ≡ self.entry.now) }
    {
        Ok(Header {
            rules: self.rules.copy(alloc)?,
            now: self.now,
        })
    }
}

/// What a script says of the time before its first event of another kind.
#[derive(Drop)]
pub enum Have {
    /// The provider of this origin said this login status, which is not Unknown (Login Status API).
    Login { origin: Origin, status: LoginStatus },
    /// A permission is kept: the user signed in to pages of this origin with this account of this provider (FedCM,
    /// "connected accounts set").
    Kept(Triple),
    /// A page of this origin prevented silent access (Credential Management, "prevent silent access flag").
    Silent { origin: Origin },
    /// A reply from the URL carried a Set-Cookie field with this value.
    Cookie { url: WebUrl, field: Bytes },
}

/// An event of a script, one variant for each kind of line. What is large or rare has a place of its own, since each event is moved
/// several times.
pub enum Event {
    /// Something stands from before the script.
    Have(Placed<Have>),
    /// It is this time from now on, in seconds since 1970.
    At {
        time: u64,
    },
    /// A page is loaded: from now on it stands with the URL's origin. `raw` has the bytes of the reply, if the script
    /// gives one.
    Load {
        page: u32,
        url: WebUrl,
        raw: Option<Bytes>,
    },
    /// A page is closed, and stands no more.
    ClosePage {
        page: u32,
    },
    /// A page calls `navigator.credentials.get` (FedCM), under a number that names the call from then on.
    Get {
        page: u32,
        call: u32,
        options: GetOptions,
    },
    /// The page aborts its call (DOM, "AbortSignal").
    Abort {
        call: u32,
    },
    /// The user goes on at the prompt of a call: the kind `continue`.
    GoOn {
        call: u32,
    },
    /// The user closes the dialog of a call without a choice.
    Cancel {
        call: u32,
    },
    /// The user asks for the login window of a call whose provider gave no account.
    SignIn {
        call: u32,
    },
    /// The user closes the login window of a call.
    ShutWindow {
        call: u32,
    },
    /// The bytes that came back for the call's request of this kind to the provider at this place in its list; none
    /// where the connection gave nothing.
    Reply {
        call: u32,
        provider: u32,
        kind: ReplyKind,
        raw: Bytes,
    },
    /// The user chooses the account of this id, of the provider at this place in the call's list.
    Choose {
        call: u32,
        provider: u32,
        account: Text,
    },
    /// A page says that the user has signed in at its origin: it calls `IdentityProvider.close` (FedCM).
    IdpClose {
        page: u32,
    },
    /// A page calls `navigator.credentials.preventSilentAccess` (Credential Management 2.5.5).
    Prevent {
        page: u32,
    },
    /// A page calls `navigator.login.setStatus` (Login Status API). The status is not Unknown.
    SetStatus {
        page: u32,
        status: LoginStatus,
    },
    /// A page calls `IdentityCredential.disconnect` (FedCM), under a number that names the call from then on: the
    /// provider's configuration URL, the relying party's id there, and the account that it hints at.
    Disconnect {
        page: u32,
        call: u32,
        config: WebUrl,
        client: Text,
        hint: Placed<Text>,
    },
}

// Written out, so that one function lets an event go wherever it ends.
impl Drop for Event {
    fn drop(self) {
        match self {
            Event::Have(_)
            | Event::At { time: _ }
            | Event::Load {
                page: _,
                url: _,
                raw: _,
            }
            | Event::ClosePage { page: _ }
            | Event::Get {
                page: _,
                call: _,
                options: _,
            }
            | Event::Abort { call: _ }
            | Event::GoOn { call: _ }
            | Event::Cancel { call: _ }
            | Event::SignIn { call: _ }
            | Event::ShutWindow { call: _ }
            | Event::Reply {
                call: _,
                provider: _,
                kind: _,
                raw: _,
            }
            | Event::Choose {
                call: _,
                provider: _,
                account: _,
            }
            | Event::IdpClose { page: _ }
            | Event::Prevent { page: _ }
            | Event::SetStatus { page: _, status: _ }
            | Event::Disconnect {
                page: _,
                call: _,
                config: _,
                client: _,
                hint: _,
            } => {}
        }
    }
}

/// An event with the number of its line, where the header's is 1.
#[derive(Drop)]
pub struct Numbered {
    pub line: u32,
    pub event: Event,
}

/// A line of a script with its number, where the header's is 1.
pub enum Line {
    /// A line after the header that has space, tab and CR alone, or nothing.
    Blank(u32),
    /// The first line.
    Head(u32, Placed<Header>),
    /// A line after the header that names an event.
    Event(u32, Event),
    /// The first bad line, and why it is bad. Nothing after it is read.
    Bad(u32, LineCause),
}

impl Line {
    /// The header, if the line is it.
    pub fn into_header(self) -> Option<Header>
        ensures { result ≡ header_in self }
    {
        match self {
            Line::Head(_, header) => Some(header.open()),
            Line::Blank(_) | Line::Event(_, _) | Line::Bad(_, _) => None,
        }
    }
}

// Written out, so that one function lets a line go wherever it ends.
impl Drop for Line {
    fn drop(self) {
        match self {
            Line::Blank(_) | Line::Head(_, _) | Line::Event(_, _) | Line::Bad(_, _) => {}
        }
    }
}
