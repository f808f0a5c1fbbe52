//! The kinds of events.
ghost use Rattle.std.specs.Prelude.{◌≡◌};
ghost use Rattle.fed_twin.specs.Twin as spec;

use fed_script::Event;

/// The kind of an event, which its line names.
#[derive(Clone, Copy, Debug, PartialEq, Eq)]
pub enum Kind {
    Have,
    At,
    Load,
    ClosePage,
    Get,
    Abort,
    GoOn,
    Cancel,
    SignIn,
    ShutWindow,
    IdpClose,
    Reply,
    Choose,
    Prevent,
    SetStatus,
    Disconnect,
}

/// The kind of an event. It takes no memory.
pub fn kind_of(event: &Event) -> Kind
    ensures { result ≡ spec.kind_of event.now }
{
    match event {
        Event::Have(_) => Kind::Have,
        Event::At { .. } => Kind::At,
        Event::Load { .. } => Kind::Load,
        Event::ClosePage { .. } => Kind::ClosePage,
        Event::Get { .. } => Kind::Get,
        Event::Abort { .. } => Kind::Abort,
        Event::GoOn { .. } => Kind::GoOn,
        Event::Cancel { .. } => Kind::Cancel,
        Event::SignIn { .. } => Kind::SignIn,
        Event::ShutWindow { .. } => Kind::ShutWindow,
        Event::IdpClose { .. } => Kind::IdpClose,
        Event::Reply { .. } => Kind::Reply,
        Event::Choose { .. } => Kind::Choose,
        Event::Prevent { .. } => Kind::Prevent,
        Event::SetStatus { .. } => Kind::SetStatus,
        Event::Disconnect { .. } => Kind::Disconnect,
    }
}
