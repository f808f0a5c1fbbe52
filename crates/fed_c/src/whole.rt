//! A form of the program over bytes that are there whole.
ghost use Rattle.std.specs.Prelude.{◌≡◌, ◌<◌, true, IfOk};
ghost use Rattle.fed_c.specs.Hands.{Tells};
ghost use Rattle.fed_run.specs.Ends.{HasEnded};
ghost use Rattle.fed_run.specs.Words.{form_named, form_of as form, slice_of};

use crate::lent::Lent;
use fed_io::{NoRoom, Steps, Text};
use fed_run::{Grown, Status, fedcm};
use std::alloc::Global;
use std::marker::Brand;
use std::sync::ledger::{Blank, Ledger};

/// What a form wrote, and how it ended.
#[derive(Drop)]
pub struct Told {
    pub text: Vec<u8>,
    pub status: Status,
}

// Whether a form went to its end, and was not stopped before it.
fn has_ended(status: Status) -> bool
    ensures { result ≡ true → HasEnded status }
{
    match status {
        Status::Done | Status::BadScript | Status::TooLong => true,
        Status::NotTwins | Status::Faulty | Status::NotSaved | Status::Differs => true,
        Status::Usage | Status::ReadFault | Status::WriteFault | Status::NoRoom => false,
    }
}

// The form of these words, over a ledger that is new.
fn tell_by<L: Ledger>(
    alloc: Global,
    words: &[Text],
    bytes: &[u8],
    blank: Blank,
) -> Result<Told, NoRoom>
    requires name { blank.name ≡ L.name }
    requires parts { blank.parts ≡ L.parts }
    requires some { 0 < L.parts }
    ensures tells { IfOk result (λ told. Tells (form words.now) bytes.now told.status told.text.items) }
    ensures ended { IfOk result (λ told. HasEnded told.status) }
{
    let mut source = Lent { bytes };
    let mut sink = Grown::new(alloc);
    let mut steps: Steps<L> = Steps::new(blank);
    let status = fedcm(alloc, words, &mut source, &mut sink, &mut steps);
    if !has_ended(status) {
        return Err(NoRoom);
    }
    Ok(Told {
        text: sink.text,
        status,
    })
}

/// What the form of this word writes for these bytes, and how it ends. Of a word that is no form nothing is told.
pub fn tell(alloc: Global, word: &str, bytes: &[u8]) -> Result<Told, NoRoom>
    ensures tells { IfOk result (λ told. Tells (form_named word.now) bytes.now told.status told.text.items) }
    ensures ended { IfOk result (λ told. HasEnded told.status) }
{
    let mut words = Vec::new(alloc);
    words.push(Text::of(alloc, word)?)?;
    tell_by::<Brand>(alloc, words.as_slice(), bytes, Blank::new(1))
}

/// What the form `slice` of this party writes for these bytes, and how it ends. Of a party without a byte nothing is told.
pub fn tell_slice(alloc: Global, party: &str, bytes: &[u8]) -> Result<Told, NoRoom>
    ensures tells { IfOk result (λ told. Tells (slice_of party.now) bytes.now told.status told.text.items) }
    ensures ended { IfOk result (λ told. HasEnded told.status) }
{
    let mut words = Vec::new(alloc);
    words.push(Text::of(alloc, "slice")?)?;
    words.push(Text::of(alloc, party)?)?;
    tell_by::<Brand>(alloc, words.as_slice(), bytes, Blank::new(1))
}
