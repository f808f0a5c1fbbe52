//! The lines of items: each is written, and read back.
ghost use Rattle.std.specs.Prelude.{◌≡◌, ◌++◌, ◌<◌, ◌-◌, ◌+◌, ◌↔◌, IsTrue, IfOk, OnOk, map, length, take, drop, option_and_then};
ghost use Rattle.fed_print.specs.Lines.{line_of};
ghost use Rattle.fed_print.specs.Object.{members_of};
ghost use Rattle.fed_profile.specs.Item.{Item, LoginItem, KeptItem, FlagItem, CookieItem, PageItem, item_of, item_in};
ghost use Rattle.fed_profile.specs.Lines.{item_members, bare_line};
ghost use Rattle.fed_profile.specs.Restores.{Restores};
ghost use Rattle.fed_profile.specs.Walk.{Walked};

use crate::again::{have_in, is_cookie, is_flag, is_kept, is_login, is_page};
use crate::cookie::{cookie_field, cookie_url};
use crate::object::{cookie_object, flag_object, kept_object, login_object, page_object};
use crate::reading::event_in;
use fed_io::NoRoom;
use fed_jar::Cookie;
use fed_origin::{LoginStatus, Origin, Triple};
use fed_print::Object;
use fed_script::Event;
use fed_suffix::Suffixes;
use std::alloc::Global;

/// Where a walk over items ended.
#[derive(Clone, Copy)]
pub enum Walk {
    /// Each item was restored by its line, and the next one stands at this place.
    On(u32),
    /// The line of the item at this place does not restore it.
    Lost(u32),
}

/// What was written from a place on, without its LF.
pub fn line_from(text: &[u8], start: usize) -> &[u8]
    requires { start < length text.now }
    ensures { result.now ≡ take (length text.now - start - 1) (drop start text.now) }
{
    let (_, line) = text.split_at(start);
    let (line, _) = line.split_at(line.len() - 1);
    line
}

// Writes the line of an object, and answers the event that it is read as.
fn written(
    alloc: Global,
    rules: &Suffixes,
    now: u64,
    text: &mut Vec<u8>,
    object: Object,
) -> Result<Option<Event>, NoRoom>
    ensures text { OnOk result (text.new.items ≡ text.old.items ++ line_of (members_of object)) }
    ensures event { IfOk result (λ event. option_and_then (item_of rules.now now) event
        ≡ item_in rules.now now (bare_line (members_of object))) }
{
    let start = text.as_slice().len();
    object.append_line(text)?;
    let line = line_from(text.as_slice(), start);
    let event = event_in(alloc, rules, now, line)?;
    Ok(event)
}

fn write_login(
    alloc: Global,
    rules: &Suffixes,
    now: u64,
    text: &mut Vec<u8>,
    origin: &Origin,
    status: LoginStatus,
) -> Result<bool, NoRoom>
    ensures text { OnOk result (text.new.items
        ≡ text.old.items ++ line_of (item_members now (LoginItem origin.now status))) }
    ensures restores { IfOk result (λ same. IsTrue same
        ↔ Restores rules.now now (LoginItem origin.now status)) }
{
    let event = written(
        alloc,
        rules,
        now,
        text,
        login_object(alloc, origin, status)?,
    )?;
    Ok(is_login(have_in(&event), origin, status))
}

fn write_kept(
    alloc: Global,
    rules: &Suffixes,
    now: u64,
    text: &mut Vec<u8>,
    triple: &Triple,
) -> Result<bool, NoRoom>
    ensures text { OnOk result (text.new.items ≡ text.old.items ++ line_of (item_members now (KeptItem triple.now))) }
    ensures restores { IfOk result (λ same. IsTrue same ↔ Restores rules.now now (KeptItem triple.now)) }
{
    let event = written(alloc, rules, now, text, kept_object(alloc, triple)?)?;
    Ok(is_kept(have_in(&event), triple))
}

fn write_flag(
    alloc: Global,
    rules: &Suffixes,
    now: u64,
    text: &mut Vec<u8>,
    origin: &Origin,
) -> Result<bool, NoRoom>
    ensures text { OnOk result (text.new.items ≡ text.old.items ++ line_of (item_members now (FlagItem origin.now))) }
    ensures restores { IfOk result (λ same. IsTrue same ↔ Restores rules.now now (FlagItem origin.now)) }
{
    let event = written(alloc, rules, now, text, flag_object(alloc, origin)?)?;
    Ok(is_flag(have_in(&event), origin))
}

fn write_cookie(
    alloc: Global,
    rules: &Suffixes,
    now: u64,
    text: &mut Vec<u8>,
    cookie: &Cookie,
) -> Result<bool, NoRoom>
    ensures text { OnOk result (text.new.items ≡ text.old.items ++ line_of (item_members now (CookieItem cookie.now))) }
    ensures restores { IfOk result (λ same. IsTrue same ↔ Restores rules.now now (CookieItem cookie.now)) }
{
    let field = cookie_field(alloc, now, cookie)?;
    let url = cookie_url(alloc, cookie)?;
    let object = cookie_object(alloc, field.as_slice(), url.as_slice())?;
    let event = written(alloc, rules, now, text, object)?;
    let same = is_cookie(alloc, rules, now, have_in(&event), cookie)?;
    Ok(same)
}

fn write_page(
    alloc: Global,
    rules: &Suffixes,
    now: u64,
    text: &mut Vec<u8>,
    page: u32,
    origin: &Origin,
) -> Result<bool, NoRoom>
    ensures text { OnOk result (text.new.items
        ≡ text.old.items ++ line_of (item_members now (PageItem page origin.now))) }
    ensures restores { IfOk result (λ same. IsTrue same
        ↔ Restores rules.now now (PageItem page origin.now)) }
{
    let event = written(alloc, rules, now, text, page_object(alloc, page, origin)?)?;
    Ok(is_page(&event, page, origin))
}

/// What has a line of its own.
pub trait Lined {
    // The item that it is.
    ghost item: { Self → Item };

    /// Writes its line, and answers whether the line restores it.
    fn write(
        &self,
        alloc: Global,
        rules: &Suffixes,
        now: u64,
        text: &mut Vec<u8>,
    ) -> Result<bool, NoRoom>
        ensures text { OnOk result (text.new.items ≡ text.old.items ++ line_of (item_members now (item self.now))) }
        ensures restores { IfOk result (λ same. IsTrue same ↔ Restores rules.now now (item self.now)) };
}

impl Lined for (Origin, LoginStatus) {
    ghost item = { λ login. LoginItem login.0 login.1 };

    fn write(
        &self,
        alloc: Global,
        rules: &Suffixes,
        now: u64,
        text: &mut Vec<u8>,
    ) -> Result<bool, NoRoom>
        ensures text { OnOk result (text.new.items ≡ text.old.items ++ line_of (item_members now (LoginItem self.now.0 self.now.1))) }
        ensures restores { IfOk result (λ same. IsTrue same ↔ Restores rules.now now (LoginItem self.now.0 self.now.1)) }
    {
        write_login(alloc, rules, now, text, &self.0, self.1)
    }
}

impl Lined for Triple {
    ghost item = { KeptItem };

    fn write(
        &self,
        alloc: Global,
        rules: &Suffixes,
        now: u64,
        text: &mut Vec<u8>,
    ) -> Result<bool, NoRoom>
        ensures text { OnOk result (text.new.items ≡ text.old.items ++ line_of (item_members now (KeptItem self.now))) }
        ensures restores { IfOk result (λ same. IsTrue same ↔ Restores rules.now now (KeptItem self.now)) }
    {
        write_kept(alloc, rules, now, text, self)
    }
}

impl Lined for Origin {
    ghost item = { FlagItem };

    fn write(
        &self,
        alloc: Global,
        rules: &Suffixes,
        now: u64,
        text: &mut Vec<u8>,
    ) -> Result<bool, NoRoom>
        ensures text { OnOk result (text.new.items ≡ text.old.items ++ line_of (item_members now (FlagItem self.now))) }
        ensures restores { IfOk result (λ same. IsTrue same ↔ Restores rules.now now (FlagItem self.now)) }
    {
        write_flag(alloc, rules, now, text, self)
    }
}

impl Lined for Cookie {
    ghost item = { CookieItem };

    fn write(
        &self,
        alloc: Global,
        rules: &Suffixes,
        now: u64,
        text: &mut Vec<u8>,
    ) -> Result<bool, NoRoom>
        ensures text { OnOk result (text.new.items ≡ text.old.items ++ line_of (item_members now (CookieItem self.now))) }
        ensures restores { IfOk result (λ same. IsTrue same ↔ Restores rules.now now (CookieItem self.now)) }
    {
        write_cookie(alloc, rules, now, text, self)
    }
}

impl Lined for (u32, Origin) {
    ghost item = { λ page. PageItem page.0 page.1 };

    fn write(
        &self,
        alloc: Global,
        rules: &Suffixes,
        now: u64,
        text: &mut Vec<u8>,
    ) -> Result<bool, NoRoom>
        ensures text { OnOk result (text.new.items ≡ text.old.items ++ line_of (item_members now (PageItem self.now.0 self.now.1))) }
        ensures restores { IfOk result (λ same. IsTrue same ↔ Restores rules.now now (PageItem self.now.0 self.now.1)) }
    {
        write_page(alloc, rules, now, text, self.0, &self.1)
    }
}

/// The lines of these, of which the first stands at this place, as far as each restores its item.
pub fn write_each<I: Lined>(
    alloc: Global,
    rules: &Suffixes,
    now: u64,
    text: &mut Vec<u8>,
    items: &[I],
    from: u32,
) -> Result<Walk, NoRoom>
    ensures { IfOk result (Walked rules.now now (map I.item items.now) from text.old.items text.new.items) }
{
    let mut place = from;
    for item in items {
        let same = item.write(alloc, rules, now, text)?;
        if !same {
            return Ok(Walk::Lost(place));
        }
        let next = next_place(place)?;
        place = next;
    }
    Ok(Walk::On(place))
}

// The place after this one. It is want of memory too where there are 2^32 items.
fn next_place(place: u32) -> Result<u32, NoRoom>
    ensures { IfOk result (λ next. next ≡ place + 1) }
{
    place.checked_add(1).ok_or(NoRoom)
}
