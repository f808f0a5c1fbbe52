//! What C calls. The call of a form puts the length of the form's text into `size` and the text to the front of `out`, as much as there
//! is room for, and answers the number of its status. With 5 there was no memory, and both are as they were.
ghost use Rattle.std.specs.Prelude.{◌≡◌, ◌⊎◌, ◌↔◌, length, Some, IfSome, IfNone};
ghost use Rattle.fed_run.specs.declared.form.Form.TheVariants.{Check, Twin, Audit, Compare, Save, Slice};
ghost use Rattle.fed_run.specs.Run.{run_status, run_written};
ghost use Rattle.fed_run.specs.Words.{exit_code, form_named};
ghost use Rattle.fed_c.specs.Hands.{Hands, laid, NamesParty};

use crate::whole::{Told, tell, tell_slice};
use std::alloc::Global;

/// What is answered where there is no memory.
const NO_ROOM: u8 = 5;

/// What is answered of a party that is none: the words of a command line would be no form.
const NO_FORM: u8 = 1;

/// Lays a text over the front of a buffer, as much as there is room for.
pub fn give(text: &[u8], buf: &mut [u8])
    ensures { buf.new ≡ laid text.now buf.old }
{
    let count = buf.len().min(text.len());
    buf[..count].copy_from_slice(&text[..count]);
}

// Hands out what was told.
fn hand(told: &Told, out: &mut [u8], size: &mut usize) -> u8
    ensures number { result ≡ exit_code told.now.status }
    ensures size { size.new ≡ length told.now.text.items }
    ensures lays { out.new ≡ laid told.now.text.items out.old }
{
    *size = told.text.len();
    give(told.text.as_slice(), out);
    told.status.code()
}

// Hands out what the form of this word tells of the bytes.
fn hand_form(alloc: Global, word: &str, bytes: &[u8], out: &mut [u8], size: &mut usize) -> u8
    ensures hands { (result ≡ NO_ROOM → ⊥) → Hands (form_named word.now) bytes.now result size.new out.old out.new }
    ensures kept { result ≡ NO_ROOM → (size.new ≡ size.old) × (out.new ≡ out.old) }
{
    match tell(alloc, word, bytes) {
        Err(_) => NO_ROOM,
        Ok(told) => hand(&told, out, size),
    }
}

// The party that is named by these bytes: a text of at least one byte.
fn party_of(bytes: &[u8]) -> Option<&str>
    ensures some { IfSome result (λ party. (party.now ≡ bytes.now) × NamesParty bytes.now) }
    ensures none { IfNone result (¬ (NamesParty bytes.now)) }
{
    if bytes.is_empty() {
        return None;
    }
    str::from_utf8(bytes).ok()
}

/// The version of the profile: the number of the member `fedcm` in the header of a script.
#[unsafe(no_mangle)]
pub extern "C" fn fedcm_profile() -> u32
    ensures { result ≡ 1 }
{
    1
}

/// Runs a script: hands out its transcript. It ends with 0 done, 2 a bad line, 6 too long.
#[unsafe(no_mangle)]
pub extern "C" fn fedcm_run(alloc: Global, script: &[u8], out: &mut [u8], size: &mut usize) -> u8
    ensures ends { (result ≡ NO_ROOM → ⊥) → result ≡ exit_code (run_status 67108864 script.now) }
    ensures length { (result ≡ NO_ROOM → ⊥) → size.new ≡ length (run_written 67108864 script.now) }
    ensures writes { (result ≡ NO_ROOM → ⊥) → out.new ≡ laid (run_written 67108864 script.now) out.old }
    ensures kept { result ≡ NO_ROOM → (size.new ≡ size.old) × (out.new ≡ out.old) }
{
    hand_form(alloc, "run", script, out, size)
}

/// Checks a script: hands out a record of each bad line and of each member that is read over. It ends as `fedcm_run`.
#[unsafe(no_mangle)]
pub extern "C" fn fedcm_check(alloc: Global, script: &[u8], out: &mut [u8], size: &mut usize) -> u8
    ensures hands { (result ≡ NO_ROOM → ⊥) → Hands (Some Check) script.now result size.new out.old out.new }
    ensures kept { result ≡ NO_ROOM → (size.new ≡ size.old) × (out.new ≡ out.old) }
{
    hand_form(alloc, "check", script, out, size)
}

/// Compares two scripts, which the line `{"next":"script"}` divides, as twins. It ends with 0 twins, 7 no twins, 2 a bad line, 6 too long.
#[unsafe(no_mangle)]
pub extern "C" fn fedcm_twin(alloc: Global, pair: &[u8], out: &mut [u8], size: &mut usize) -> u8
    ensures hands { (result ≡ NO_ROOM → ⊥) → Hands (Some Twin) pair.now result size.new out.old out.new }
    ensures kept { result ≡ NO_ROOM → (size.new ≡ size.old) × (out.new ≡ out.old) }
{
    hand_form(alloc, "twin", pair, out, size)
}

/// Audits a transcript, which the line `{"next":"transcript"}` divides from its script. It ends with 0 no rule is broken, 8 one is,
/// 2 a bad line, 6 too long.
#[unsafe(no_mangle)]
pub extern "C" fn fedcm_audit(alloc: Global, pair: &[u8], out: &mut [u8], size: &mut usize) -> u8
    ensures hands { (result ≡ NO_ROOM → ⊥) → Hands (Some Audit) pair.now result size.new out.old out.new }
    ensures kept { result ≡ NO_ROOM → (size.new ≡ size.old) × (out.new ≡ out.old) }
{
    hand_form(alloc, "audit", pair, out, size)
}

/// Compares a transcript with the program's own. It ends with 0 alike, 10 where it leaves it, 2 a bad line, 6 too long.
#[unsafe(no_mangle)]
pub extern "C" fn fedcm_compare(alloc: Global, pair: &[u8], out: &mut [u8], size: &mut usize) -> u8
    ensures hands { (result ≡ NO_ROOM → ⊥) → Hands (Some Compare) pair.now result size.new out.old out.new }
    ensures kept { result ≡ NO_ROOM → (size.new ≡ size.old) × (out.new ≡ out.old) }
{
    hand_form(alloc, "compare", pair, out, size)
}

/// Gives a script that brings back the state that a script leaves behind. It ends with 0 done, 9 not saved, 2 a bad line, 6 too long.
#[unsafe(no_mangle)]
pub extern "C" fn fedcm_save(alloc: Global, script: &[u8], out: &mut [u8], size: &mut usize) -> u8
    ensures hands { (result ≡ NO_ROOM → ⊥) → Hands (Some Save) script.now result size.new out.old out.new }
    ensures kept { result ≡ NO_ROOM → (size.new ≡ size.old) × (out.new ≡ out.old) }
{
    hand_form(alloc, "save", script, out, size)
}

/// Gives the lines of a script that concern a party, and all that it is linked with. It ends with 0 done, 1 the party has no byte or is
/// no UTF-8, 2 a bad line, 6 too long. With 1 nothing is handed out.
#[unsafe(no_mangle)]
pub extern "C" fn fedcm_slice(
    alloc: Global,
    party: &[u8],
    script: &[u8],
    out: &mut [u8],
    size: &mut usize,
) -> u8
    ensures no_form { (result ≡ NO_FORM) ↔ (¬ (NamesParty party.now)) }
    ensures hands { (result ≡ NO_ROOM → ⊥) → (result ≡ NO_FORM → ⊥)
        → Hands (Some (Slice party.now)) script.now result size.new out.old out.new }
    ensures kept { (result ≡ NO_ROOM) ⊎ (result ≡ NO_FORM) → (size.new ≡ size.old) × (out.new ≡ out.old) }
{
    let Some(party) = party_of(party) else {
        return NO_FORM;
    };
    match tell_slice(alloc, party, script) {
        Err(_) => NO_ROOM,
        Ok(told) => hand(&told, out, size),
    }
}
