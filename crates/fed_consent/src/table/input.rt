//! What a call takes.

use fed_io::{Bytes, Text};
use fed_origin::ReplyKind;

/// What a call that began can take (this profile's own).
pub enum Input {
    /// The bytes that came for a request of this kind to the provider at this place in the call's list. No bytes stand for a
    /// connection that gave nothing.
    Reply {
        provider: u32,
        kind: ReplyKind,
        raw: Bytes,
    },
    /// The user chose the account with this id.
    Choose {
        provider: u32,
        account: Text,
    },
    /// The user went on with the account that is shown.
    GoOn,
    /// The user closed the dialog.
    Cancel,
    /// The user asked for the login window.
    SignIn,
    /// The user closed the login window.
    Shut,
    /// The provider said that the sign-in in its window is done.
    Resume,
    /// The page aborted the call.
    Abort,
}

// Written out, so that one function lets it go wherever it ends.
impl Drop for Input {
    fn drop(self) {
        match self {
            Input::Reply {
                provider: _,
                kind: _,
                raw: _,
            }
            | Input::Choose {
                provider: _,
                account: _,
            }
            | Input::GoOn
            | Input::Cancel
            | Input::SignIn
            | Input::Shut
            | Input::Resume
            | Input::Abort => {}
        }
    }
}
