//! The events that are compared.
ghost use Rattle.std.specs.Prelude.{◌≡◌, ◌<◌, [], ◌∷◌, length, IfSome, MatchOption};
ghost use Rattle.fed_twin.specs.Script as spec;
ghost use Rattle.fed_twin.specs.Script.{kept_events};

use fed_origin::ReplyKind;
use fed_script::{Event, Have, Numbered};

/// Whether the event is compared: any but a metadata reply and a kept permission. It takes no memory.
pub fn is_kept(event: &Event) -> bool
    ensures { result ≡ spec.is_kept event.now }
{
    match event {
        Event::Reply { kind, .. } => *kind != ReplyKind::Metadata,
        Event::Have(have) => !matches!(have.get(), Have::Kept(_)),
        _ => true,
    }
}

/// The first event that is compared, and those after it. It takes no memory.
pub fn next_kept(events: &[Numbered]) -> Option<(&Event, &[Numbered])>
    ensures kept { MatchOption result (kept_events events.now ≡ [])
        (λ next. kept_events events.now ≡ next.0.now ∷ kept_events next.1.now) }
    ensures shorter { IfSome result (λ next. length next.1.now < length events.now) }
{
    let mut left = events;
    while let Some((first, more)) = left.split_first() {
        if is_kept(&first.event) {
            return Some((&first.event, more));
        }
        left = more;
    }
    None
}
