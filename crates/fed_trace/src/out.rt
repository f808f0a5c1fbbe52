//! Records of a step.

use fed_consent::{Dialog, Failure, Finish, Why};
use fed_io::{Bytes, Placed};
use fed_origin::{ReplyKind, WebUrl};

/// A record, with the number of the line whose event it comes from.
#[derive(Drop)]
pub enum Out {
    /// A request of a call to the provider at this place in its list, and all its bytes.
    Request {
        line: u32,
        call: u32,
        provider: u32,
        kind: ReplyKind,
        bytes: Bytes,
    },
    /// The provider at this place in the call's list dropped out.
    Dropped {
        line: u32,
        call: u32,
        provider: u32,
        failure: Failure,
    },
    /// A dialog of a call is shown.
    Dialog {
        line: u32,
        call: u32,
        dialog: Placed<Dialog>,
    },
    /// The login window of the provider at this place in the call's list opens at this URL.
    Window {
        line: u32,
        call: u32,
        provider: u32,
        url: WebUrl,
    },
    /// What the promise of a call of the page gets.
    Answer {
        line: u32,
        call: u32,
        page: u32,
        finish: Finish,
    },
    /// The event was not taken.
    Ignored {
        line: u32,
        why: Why,
    },
}
