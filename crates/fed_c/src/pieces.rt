//! A script that comes in pieces, as C calls it.
ghost use Rattle.std.specs.Prelude.{◌≡◌, ◌≤◌, ◌+◌, ◌++◌, ℕ, drop, List, [], length, true, false, Some, None, IsSome, IfSome};
ghost use Rattle.fed_run.specs.declared.live.Live.{Live};
ghost use Rattle.fed_run.specs.Fed.{Goes, FedBy};
ghost use Rattle.fed_c.specs.Hands.{laid, standing as number};

use crate::calls::give;
use crate::handle::Handle;
use fed_run::Live;
use std::alloc::Global;
use std::mem::replace;

/// What is answered while a run goes on.
const GOES_ON: u8 = 255;

/// What is answered of a run that is not open.
const CLOSED: u8 = 254;

/// What C keeps of a run that is fed its script in pieces. It begins as zeros, and C never writes it.
#[repr(C)]
#[derive(Drop)]
pub struct Run {
    pub is_open: bool,
    pub handle: Handle,
    pub ghost fits: { is_open ≡ true → IsSome handle.live },
}

// Where a run stands: 255 while it goes on, else the number of its status.
fn standing(live: &Live) -> u8
    ensures { result ≡ number live.now.end }
{
    match live.end {
        None => GOES_ON,
        Some(status) => status.code(),
    }
}

// A run that is not open.
fn closed(alloc: Global) -> Run
    ensures { (result.is_open ≡ false) × (result.handle.live ≡ None) }
{
    Run {
        is_open: false,
        handle: Handle::closed(alloc),
    }
}

// A run that is open.
fn opened(live: Box<Live>) -> Run
    ensures { (result.is_open ≡ true) × (result.handle.live ≡ Some live.value) }
{
    Run {
        is_open: true,
        handle: Handle::of(live),
    }
}

// The run itself, and in its place one that is not open.
fn out_of(alloc: Global, run: &mut Run) -> Box<Live>
    requires { run.old.is_open ≡ true }
    ensures out { run.old.handle.live ≡ Some result.value }
    ensures left { run.new.is_open ≡ false }
{
    replace(run, closed(alloc)).handle.into_box()
}

/// Opens a run that is not open. Answers whether there was memory; of an open one `false`.
#[unsafe(no_mangle)]
pub extern "C" fn fedcm_open(alloc: Global, run: &mut Run) -> bool
    ensures opened { result ≡ true → (run.new.is_open ≡ true) × IfSome run.new.handle.live (λ live. (live.end ≡ None) × Goes live []) }
    ensures kept { result ≡ false → run.new.is_open ≡ run.old.is_open }
{
    if run.is_open {
        return false;
    }
    match Box::new(alloc, Live::new(alloc)) {
        Ok(live) => {
            *run = opened(live);
            true
        }
        Err(_) => false,
    }
}

/// Feeds an open run a piece of its script, and answers 255 where it goes on, 254 where it is not open, else the number of its status.
#[unsafe(no_mangle)]
pub extern "C" fn fedcm_feed(alloc: Global, run: &mut Run, piece: &[u8]) -> u8
    requires going { IfSome run.old.handle.live (λ live. live.end ≡ None → (bytes : List ℕ) × Goes live bytes) }
    ensures open { run.new.is_open ≡ run.old.is_open }
    ensures closed { run.old.is_open ≡ false → result ≡ CLOSED }
    ensures answers { run.old.is_open ≡ true → IfSome run.new.handle.live (λ new. result ≡ number new.end) }
    ensures fed { (old : Live) (bytes : List ℕ) → run.old.is_open ≡ true → run.old.handle.live ≡ Some old → old.end ≡ None → Goes old bytes
        → IfSome run.new.handle.live (λ new. FedBy new.end new (bytes ++ piece.now)) }
    ensures over { (old : Live) → run.old.is_open ≡ true → run.old.handle.live ≡ Some old → IsSome old.end → run.new.handle.live ≡ Some old }
{
    if !run.is_open {
        return CLOSED;
    }
    let mut live = out_of(alloc, run);
    live.feed(piece);
    let at = standing(&live);
    *run = opened(live);
    at
}

/// Ends the script of an open run, and answers the number of its status; 254 where it is not open.
#[unsafe(no_mangle)]
pub extern "C" fn fedcm_finish(alloc: Global, run: &mut Run) -> u8
    requires going { IfSome run.old.handle.live (λ live. live.end ≡ None → (bytes : List ℕ) × Goes live bytes) }
    ensures open { run.new.is_open ≡ run.old.is_open }
    ensures closed { run.old.is_open ≡ false → result ≡ CLOSED }
    ensures ended { result ≡ GOES_ON → ⊥ }
    ensures answers { run.old.is_open ≡ true → IfSome run.new.handle.live (λ new. result ≡ number new.end) }
    ensures fed { (old : Live) (bytes : List ℕ) → run.old.is_open ≡ true → run.old.handle.live ≡ Some old → old.end ≡ None → Goes old bytes
        → IfSome run.new.handle.live (λ new. FedBy new.end new bytes) }
    ensures over { (old : Live) → run.old.is_open ≡ true → run.old.handle.live ≡ Some old → IsSome old.end → run.new.handle.live ≡ Some old }
{
    if !run.is_open {
        return CLOSED;
    }
    let mut live = out_of(alloc, run);
    live.finish();
    let at = standing(&live);
    *run = opened(live);
    at
}

// The bytes from a place on, or none.
fn rest(text: &[u8], from: usize) -> &[u8]
    ensures { result.now ≡ drop from text.now }
{
    if from <= text.len() {
        &text[from..]
    } else {
        &text[text.len()..]
    }
}

/// Lays what an open run wrote, from the place `from` on, over the front of `out`, as much as there is room for, and answers how many
/// bytes it wrote in all. Of a run that is not open it is 0.
#[unsafe(no_mangle)]
pub extern "C" fn fedcm_text(alloc: Global, run: &mut Run, from: usize, out: &mut [u8]) -> usize
    ensures open { run.new.is_open ≡ run.old.is_open }
    ensures closed { run.old.is_open ≡ false → (result ≡ 0) × (out.new ≡ out.old) }
    ensures same { run.old.is_open ≡ true → run.new.handle.live ≡ run.old.handle.live }
    ensures size { (live : Live) → run.old.is_open ≡ true → run.old.handle.live ≡ Some live → result ≡ length live.sink.text.items }
    ensures lays { (live : Live) → run.old.is_open ≡ true → run.old.handle.live ≡ Some live
        → out.new ≡ laid (drop from live.sink.text.items) out.old }
{
    if !run.is_open {
        return 0;
    }
    let live = out_of(alloc, run);
    let text = live.text();
    let size = text.len();
    give(rest(text, from), out);
    *run = opened(live);
    size
}

/// Closes a run, if it is open.
#[unsafe(no_mangle)]
pub extern "C" fn fedcm_close(alloc: Global, run: &mut Run)
    ensures { run.new.is_open ≡ false }
{
    if !run.is_open {
        return;
    }
    let _live = out_of(alloc, run);
}
