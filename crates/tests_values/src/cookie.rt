//! The reader against the published HTTP state tests, and the rules of matching.
use crate::lines::assert_so;
use fed_cookie::{
    RawCookie, SameSite, cookie_date, default_path, domain_matches, path_matches, read_set_cookie,
};
use fed_origin::WebUrl;
use std::alloc::{AllocError, Global};
use std::process::Abort;
use std::test::Fail;

// Set-Cookie fields, and the cookie that is kept: the published HTTP state tests, and a few more.
const FIELDS: &str = "foo=bar => foo=bar
foo=bar; Expires=Fri, 07 Aug 2019 08:04:19 GMT => foo=bar; Expires=1565165059
foo=bar; Expires=Fri, 07 Aug 2007 08:04:19 GMT => foo=bar; Expires=1186473859
foo => none
foo=bar; max-age=10000; => foo=bar; Max-Age=10000
foo=bar; max-age=0; => foo=bar; Max-Age=0
foo=bar; version=1; => foo=bar
foo=bar; customvalue=1000; => foo=bar
foo=bar; secure; => foo=bar; Secure
foo=bar; customvalue=\"1000 or more\"; => foo=bar
foo=bar; customvalue=\"no trailing semicolon\" => foo=bar
z=y, a=b => z=y, a=b
z=y; foo=bar, a=b => z=y
foo=b;max-age=3600, c=d;path=/ => foo=b; Path=/
= => none
=x => none
x= => x=
 => none
; bar => none
    => none
\t => none
; bar=1 => none
foo=bar; seCURe => foo=bar; Secure
foo=bar; \"Secure\" => foo=bar
foo=bar; Secure= => foo=bar; Secure
foo=bar; Secure=aaaa => foo=bar; Secure
foo=bar; Secure qux => foo=bar
foo=bar; Secure =aaaaa => foo=bar; Secure
foo=bar; Secure= aaaaa => foo=bar; Secure
foo=bar; Secure; qux => foo=bar; Secure
foo=bar; Secure;qux => foo=bar; Secure
foo=bar; Secure    ; qux => foo=bar; Secure
foo=bar;                Secure => foo=bar; Secure
foo=bar;       Secure     ; => foo=bar; Secure
foo=bar; Path => foo=bar
foo=bar; Path= => foo=bar
foo=bar; Path=/ => foo=bar; Path=/
foo=bar; Path=/qux => foo=bar; Path=/qux
foo=bar; Path    =/qux => foo=bar; Path=/qux
foo=bar; Path=    /qux => foo=bar; Path=/qux
foo=bar; Path=/qux      ; taz => foo=bar; Path=/qux
foo=bar; Path=/qux; Path=/ => foo=bar; Path=/
foo=bar; Path=/; Path=/qux => foo=bar; Path=/qux
foo=bar; Path=/qux; Path= => foo=bar
foo=bar; Path=/qux; Path=qux => foo=bar
foo=bar; Path=qux; Path=/qux => foo=bar; Path=/qux
foo=bar; Path=\"/\" => foo=bar
foo=bar; qux; Secure => foo=bar; Secure
foo=bar; qux=\"aaa;bbb\"; Secure => foo=bar; Secure
foo=bar; HttpOnly => foo=bar
aBc=\"zzz \"   ; => aBc=\"zzz \"
aBc=\"zzz ; \" ; => aBc=\"zzz
aBc=\"zzz , 2 => aBc=\"zzz , 2
a=b  c => a=b  c
foo=bar, baz=qux => foo=bar, baz=qux
foo=\"bar, baz=qux\" => foo=\"bar, baz=qux\"
foo=bar; b,az=qux => foo=bar
foo=bar; baz=q,ux => foo=bar
foo=bar; Max-Age=50,399 => foo=bar
foo=bar; Expires=Fri 07 Aug 2019 08:04:19 GMT, baz=qux => foo=bar; Expires=1565165059
foo=bar; domain=home.example.org => foo=bar; Domain=home.example.org
foo=bar; domain=.home.example.org => foo=bar; Domain=home.example.org
foo=bar; domain=..home.example.org => foo=bar; Domain=.home.example.org
foo=bar; domain=Home.Example.ORG => foo=bar; Domain=home.example.org
foo=bar; domain = .home.example.org => foo=bar; Domain=home.example.org
foo=bar; domain= => foo=bar
foo=bar; domain => foo=bar
foo=bar; domain=a.example; domain=b.example => foo=bar; Domain=b.example
foo=bar; domain=a.example; domain= => foo=bar; Domain=a.example
foo=bar; max-age=-1 => foo=bar; Max-Age=-1
foo=bar; max-age=60; max-age=x => foo=bar; Max-Age=60
foo=bar; max-age=60; max-age=5 => foo=bar; Max-Age=5
foo=bar; max-age=+60 => foo=bar
foo=bar; max-age=--1 => foo=bar
foo=bar; max-age=2.63, => foo=bar
foo=bar; max-age=00012 => foo=bar; Max-Age=12
foo=bar; expires=Thu, 10 Apr 1980 16:33:12 GMT; max-age=60 => foo=bar; Expires=324232392; Max-Age=60
foo=bar; expires=Thu, 10 Apr 1980 16:33:12 GMT; expires=never => foo=bar; Expires=324232392
test=\"fubar! = foo;bar\\\";\" parser; max-age=6 => test=\"fubar! = foo; Max-Age=6
1=bar => 1=bar
$=bar => $=bar
!a=bar => !a=bar
foo bar=baz => foo bar=baz
a =bar => a=bar
 a=bar => a=bar
\"a=b\"=bar => \"a=b\"=bar
\ta\t=\tb c\t => a=b c
foo=  bar => foo=bar
foo=\"  bar \" => foo=\"  bar \"
foo=\"bar;baz\" => foo=\"bar
foo=\"bar=baz\" => foo=\"bar=baz\"
\tfoo\t=\tbar\t \t;\tttt => foo=bar
foo=b=a=r => foo=b=a=r
foo=春 => foo=春";

// Fields on which this profile differs from RFC 6265, or which that leaves open: control bytes are
// refused, SameSite is known, a domain of a dot is there and empty, `-` is no number, and a number
// beyond an i64 counts as its greatest or least.
const OWN_FIELDS: &str = "foo=bar; domain=. => foo=bar; Domain=
foo=bar; max-age=- => foo=bar
foo=bar; max-age=9223372036854775808 => foo=bar; Max-Age=9223372036854775807
foo=bar; max-age=-9223372036854775809 => foo=bar; Max-Age=-9223372036854775808
foo=bar; max-age=99999999999999999999999999 => foo=bar; Max-Age=9223372036854775807
foo=b\x00r => none
foo=b\x7fr => none
foo=bar\rx => none
foo=bar; x\x01 => none
foo=bar; SameSite=None => foo=bar; NoLimit
foo=bar; samesite=STRICT => foo=bar; Strict
foo=bar; SameSite=lax => foo=bar
foo=bar; SameSite=None; SameSite=odd => foo=bar
foo=bar; SameSite => foo=bar
foo=bar; SameSite=Strict; SameSite=none => foo=bar; NoLimit";

// Cookie dates, and the seconds since 1970: the published HTTP state tests, and a few more.
const DATES: &str = "Mon, 10-Dec-2007 17:02:24 GMT => 1197306144
Wed, 09 Dec 2009 16:27:23 GMT => 1260376043
Thursday, 01-Jan-1970 00:00:00 GMT => 0
Mon Dec 24 16:32:30 2007 GMT => 1198513950
Sat, 15-Apr-17 21:01:22 GMT => 1492290082
Thu, 19-Apr-2007 16:00:00 GMT => 1176998400
Wed, 25 Apr 2007 21:02:13 GMT => 1177534933
Thu, 19/Apr\\2007 16:00:00 GMT => 1176998400
Fri, 1 Jan 2010 01:01:50 GMT => 1262307710
Wednesday, 1-Jan-2003 00:00:00 GMT => 1041379200
, 1-Jan-2003 00:00:00 GMT => 1041379200
 1-Jan-2003 00:00:00 GMT => 1041379200
1-Jan-2003 00:00:00 GMT => 1041379200
Wed,18-Apr-07 22:50:12 GMT => 1176936612
WillyWonka  , 18-Apr-07 22:50:12 GMT => 1176936612
WillyWonka  , 18-apr-07 22:50:12 => 1176936612
WillyWonka  , 18-apr-1977 22:50:12 => 230251812
Mon Apr 18-77 22:50:13 => 230251813
18-Apr-77 22:50:13 => 230251813
\"Sat, 15-Apr-17\\\"21:01:22\\\"GMT\" => 1492290082
Partyday, 18- April-07 22:50:12 => 1176936612
Partyday, 18 - Apri-07 22:50:12 => 1176936612
Wednes, 1-Januar-2003 00:00:00 GMT => 1041379200
Sat, 15-Apr-17 21:01:22 GMT-2 => 1492290082
Sat, 15-Apr-17 21:01:22 GMT BLAH => 1492290082
Sat, 15-Apr-17 21:01:22 GMT-0400 (EDT) => 1492290082
Sat, 15-Apr-17 21:01:22 DST => 1492290082
Sat, 15-Apr-17 21:01:22 -0400 => 1492290082
Sat, 15-Apr-17 21:01:22 (hello there) => 1492290082
Sat, 15-Apr-17 21:01:22 11:22:33 => 1492290082
Sat, 15-Apr-17 ::00 21:01:22 => 1492290082
Sat, 15-Apr-17 boink:z 21:01:22 => 1492290082
Sat, 15-Apr-17 91:22:33 21:01:22 => none
Thu Apr 18 22:50:12 2007 GMT => 1176936612
22:50:12 Thu Apr 18 2007 GMT => 1176936612
Thu 22:50:12 Apr 18 2007 GMT => 1176936612
Thu Apr 22:50:12 18 2007 GMT => 1176936612
Thu Apr 18 2007 22:50:12 GMT => 1176936612
Thu Apr 18 2007 GMT 22:50:12 => 1176936612
15-Sat, Apr-17 21:01:22 GMT => 1492290082
15-Sat, Apr 21:01:22 GMT 17 => 1492290082
15-Sat, Apr 21:01:22 GMT 2017 => 1492290082
15 17 Apr 21:01:22 => 1492290082
Apr 15 17 21:01:22 => 1492290082
2017 April 15 21:01:22 => 1492290082
98 April 17 21:01:22 => none
Thu, 012-Aug-2008 20:49:07 GMT => none
Thu, 12-Aug-9999999999999 20:49:07 GMT => none
Thu, 999999999999-Aug-2007 20:49:07 GMT => none
Thu, 12-Aug-2007 20:61:99999999999 GMT => none
IAintNoDateFool => none
 => none
Sun, 06 Nov 1994 08:49:37 GMT => 784111777
Sunday, 06-Nov-94 08:49:37 GMT => 784111777
Sun Nov  6 08:49:37 1994 => 784111777
Thu, 31-Dec-9999 23:59:59 GMT => 253402300799
Wed, 09-Jun-2021 10:18:14 GMT => 1623233894
Wed, 09-Jun-69 10:18:14 GMT => 3137998694
Wed, 09-Jun-70 10:18:14 GMT => 13774694
Wed, 09-Jun-1600 10:18:14 GMT => none
31 Feb 2021 00:00:00 => none
29 Feb 2020 23:59:59 => 1583020799
29 Feb 2100 00:00:00 => none
1 Jan 2021 24:00:00 => none
1 Jan 2021 0:0:60 => none
1 Jan 2021 0:0:5x => 1609459205
0 Jan 2021 00:00:00 => none
32 Jan 2021 00:00:00 => none";

// A moment before 1970 counts as 0, which RFC 6265 leaves open.
const OWN_DATES: &str = "Wed, 09-Jun-1601 10:18:14 GMT => 0
1 Jan 1969 00:00:00 => 0";

// The path of a request, and that of a cookie whose field names none.
const DEFAULT_PATHS: &str = "/ => /
 => /
/login => /
/login/start => /login
/login/ => /login
// => /";

// The path of a request, that of a cookie, and whether they match.
const MATCHING_PATHS: &str = "/accounts => / => yes
/accounts => /accounts => yes
/accounts/1 => /accounts => yes
/accounts/1 => /accounts/ => yes
/accounts => /accounts/ => no
/accounts2 => /accounts => no
/accounts => /Accounts => no";

// A URL, the domain of a cookie, and whether its host matches that.
const MATCHING_DOMAINS: &str = "https://a.example/ => a.example => yes
https://b.a.example/ => a.example => yes
https://ba.example/ => a.example => no
https://a.example/ => b.a.example => no
https://a.example/ =>  => no
https://a.example./ =>  => yes
https://127.0.0.1/ => 127.0.0.1 => yes
https://127.0.0.1/ => 0.0.1 => no
https://[::1]/ => [::1] => yes";

fn push_member(text: &mut Vec<u8>, name: &[u8], value: &[u8]) -> Result<(), AllocError> {
    text.extend_from_slice(name)?;
    text.extend_from_slice(value)
}

fn push_place(text: &mut Vec<u8>, cookie: &RawCookie) -> Result<(), AllocError> {
    if let Some(domain) = &cookie.domain {
        push_member(text, b"; Domain=", domain.as_slice())?;
    }
    if let Some(path) = &cookie.path {
        push_member(text, b"; Path=", path.as_slice())?;
    }
    Ok(())
}

fn push_expiry(text: &mut Vec<u8>, alloc: Global, cookie: &RawCookie) -> Result<(), AllocError> {
    if let Some(moment) = cookie.expires {
        push_member(
            text,
            b"; Expires=",
            format!(in alloc; "{moment}")?.as_bytes(),
        )?;
    }
    if let Some(seconds) = cookie.max_age {
        push_member(
            text,
            b"; Max-Age=",
            format!(in alloc; "{seconds}")?.as_bytes(),
        )?;
    }
    Ok(())
}

fn push_limits(text: &mut Vec<u8>, cookie: &RawCookie) -> Result<(), AllocError> {
    if cookie.secure {
        text.extend_from_slice(b"; Secure")?;
    }
    text.extend_from_slice(match cookie.same_site {
        SameSite::Strict => b"; Strict".as_slice(),
        SameSite::Lax => b"".as_slice(),
        SameSite::NoLimit => b"; NoLimit".as_slice(),
    })
}

// A cookie as its field might be written, with each attribute that was taken.
fn push_cookie(text: &mut Vec<u8>, alloc: Global, cookie: &RawCookie) -> Result<(), AllocError> {
    text.extend_from_slice(cookie.name.as_slice())?;
    push_member(text, b"=", cookie.value.as_slice())?;
    push_place(text, cookie)?;
    push_expiry(text, alloc, cookie)?;
    push_limits(text, cookie)
}

fn push_kept(text: &mut Vec<u8>, alloc: Global, field: &[u8]) -> Result<(), Fail> {
    match read_set_cookie(alloc, field)? {
        Some(cookie) => push_cookie(text, alloc, &cookie)?,
        None => text.extend_from_slice(b"none")?,
    }
    Ok(())
}

// What the lines of a table are about.
#[derive(Clone, Copy)]
enum About {
    Field,
    Date,
    DefaultPath,
    Path,
    Domain,
}

// Whether this is kept of the field.
fn is_kept(alloc: Global, field: &[u8], kept: &[u8]) -> Result<bool, Fail> {
    let mut text = Vec::new(alloc);
    push_kept(&mut text, alloc, field)?;
    Ok(text.as_slice() == kept)
}

fn is_moment(date: &[u8], moment: &str) -> bool {
    cookie_date(date) == moment.parse::<u64>().ok()
}

fn matches_path(request: &str, more: &str) -> Result<bool, Fail> {
    let (cookie, answer) = more.split_once(" => ").ok_or("a row")?;
    Ok(path_matches(request.as_bytes(), cookie.as_bytes()) == (answer == "yes"))
}

fn matches_domain(alloc: Global, url: &str, more: &str) -> Result<bool, Fail> {
    let (domain, answer) = more.split_once(" => ").ok_or("a row")?;
    let url = WebUrl::read(alloc, url)?;
    Ok(domain_matches(url.host(), domain.as_bytes()) == (answer == "yes"))
}

fn is_right(alloc: Global, about: About, row: &str) -> Result<bool, Fail> {
    let (first, more) = row.split_once(" => ").ok_or("a row")?;
    match about {
        About::Field => is_kept(alloc, first.as_bytes(), more.as_bytes()),
        About::Date => Ok(is_moment(first.as_bytes(), more)),
        About::DefaultPath => Ok(default_path(first.as_bytes()) == more.as_bytes()),
        About::Path => matches_path(first, more),
        About::Domain => matches_domain(alloc, first, more),
    }
}

fn all_right(rt: &impl Abort, alloc: Global, about: About, table: &str) -> Result<(), Fail> {
    for row in table.split('\n') {
        assert_so(rt, is_right(alloc, about, row)?, row);
    }
    Ok(())
}

#[test]
fn fields(rt: HostRuntime) -> Result<(), Fail> {
    all_right(&rt, rt.alloc(), About::Field, FIELDS)?;
    all_right(&rt, rt.alloc(), About::Field, OWN_FIELDS)
}

#[test]
fn dates(rt: HostRuntime) -> Result<(), Fail> {
    all_right(&rt, rt.alloc(), About::Date, DATES)?;
    all_right(&rt, rt.alloc(), About::Date, OWN_DATES)
}

#[test]
fn paths(rt: HostRuntime) -> Result<(), Fail> {
    all_right(&rt, rt.alloc(), About::DefaultPath, DEFAULT_PATHS)?;
    all_right(&rt, rt.alloc(), About::Path, MATCHING_PATHS)
}

#[test]
fn domains(rt: HostRuntime) -> Result<(), Fail> {
    all_right(&rt, rt.alloc(), About::Domain, MATCHING_DOMAINS)
}
