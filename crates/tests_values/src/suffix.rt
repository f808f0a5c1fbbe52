//! Lines and hosts, with the answers that the list's own algorithm gives.
use crate::lines::{assert_so, assert_text, assert_word, parts};
use crate::values::rules_of;
use fed_io::Fault;
use fed_origin::{Host, WebUrl};
use fed_suffix::{SuffixRefusal, Suffixes};
use std::alloc::Global;
use std::process::Abort;
use std::test::Fail;

// A line is a host and, after a space, its registrable domain or nothing.
fn is_right(alloc: Global, rules: &Suffixes, case: &str) -> Result<bool, Fail> {
    let (host, domain) = case.split_once(' ').ok_or("no space")?;
    let url = url_of(alloc, host)?;
    Ok(agrees(rules, url.host(), domain.as_bytes()))
}

fn url_of(alloc: Global, host: &str) -> Result<WebUrl, Fail> {
    let text = format!(in alloc; "https://{host}/")?;
    Ok(WebUrl::read(alloc, text.as_str())?)
}

fn agrees(rules: &Suffixes, host: &Host, domain: &[u8]) -> bool {
    let text = host.text.as_str().as_bytes();
    let party = if domain.is_empty() { text } else { domain };
    rules.registrable(host).unwrap_or(b"") == domain
        && rules.registrable_name(text).unwrap_or(b"") == domain
        && rules.party(host) == party
}

// Each of these lines is right by these rules.
fn all_right(rt: &impl Abort, alloc: Global, rules: &Suffixes, cases: &str) -> Result<(), Fail> {
    for case in cases.split('\n') {
        assert_so(rt, is_right(alloc, rules, case)?, case);
    }
    Ok(())
}

fn right_by(rt: &impl Abort, alloc: Global, list: &str, cases: &str) -> Result<(), Fail> {
    let rules = rules_of(alloc, list)?;
    all_right(rt, alloc, &rules, cases)
}

const BELOW_CK: &str = "a.b.ck a.b.ck\nwww.ck www.ck\nb.ck \nck \na.b.uk b.uk";

const BY_STARS: &str = "x.a.q.b x.a.q.b\nx.c.q.b c.q.b\nw.a.b.c.d w.a.b.c.d\n\
    w.x.b.c.d x.b.c.d\ny.x.z.c.d y.x.z.c.d\na.*.*.*.d a.*.*.*.d";

const WITH_NONE: &str = "127.0.0.1 \n[::1] \n[2001:db8::1] \nlocalhost \nexample.com. \na..com ";

#[test]
fn wildcard_and_exception(rt: HostRuntime) -> Result<(), Fail> {
    right_by(&rt, rt.alloc(), "*.ck\n!www.ck\n// x\nuk comment", BELOW_CK)
}

// A star may stand in any place, and the rule with most labels prevails.
#[test]
fn star_inside_a_rule(rt: HostRuntime) -> Result<(), Fail> {
    let list = "q.b\na.*.b\n*.*.*.d\n!x.*.*.d\n!y.x.z.c.d";
    right_by(&rt, rt.alloc(), list, BY_STARS)
}

// Addresses have no registrable domain, nor have hosts that end in a dot.
#[test]
fn addresses_and_dots(rt: HostRuntime) -> Result<(), Fail> {
    right_by(&rt, rt.alloc(), "com\n1", WITH_NONE)
}

// That this is the registrable domain of a name of raw bytes.
fn assert_raw(rt: &impl Abort, rules: &Suffixes, name: &[u8], domain: &[u8], none: &[u8]) {
    let found = rules.registrable_name(name).unwrap_or(none);
    assert_text(rt, found, domain, "raw names");
}

// A name of raw bytes is taken as it is: `COM` is another label than `com`.
#[test]
fn raw_names(rt: HostRuntime) -> Result<(), Fail> {
    let rules = rules_of(rt.alloc(), "com\nuk.com")?;
    assert_raw(&rt, &rules, b"a.b.UK.com", b"UK.com", b"");
    assert_raw(&rt, &rules, b"a.\xff.COM", b"\xff.COM", b"");
    assert_raw(&rt, &rules, b"", b"none", b"none");
    Ok(())
}

const BAD_LINES: &str = ".\n.com\ncom.\na..b\n!\n!com\n!a..com\na/b.com\na%.com";

fn is_bad(rules: &mut Suffixes, line: &str) -> bool {
    match rules.read_line(line) {
        Err(Fault::Step(SuffixRefusal::BadRule)) => true,
        _ => false,
    }
}

fn all_bad(rt: &impl Abort, rules: &mut Suffixes, lines: &str) {
    for line in lines.split('\n') {
        assert_so(rt, is_bad(rules, line), line);
    }
}

#[test]
fn lines_that_hold_no_rule_or_a_bad_one(rt: HostRuntime) -> Result<(), Fail> {
    let mut rules = rules_of(rt.alloc(), "\n// com\n//com\n \tcom\n\r")?;
    all_bad(&rt, &mut rules, BAD_LINES);
    assert_so(&rt, rules.same(&Suffixes::new(rt.alloc())), "no rule");
    Ok(())
}

fn are_same(alloc: Global, list: &str, other: &str) -> Result<bool, Fail> {
    let rules = rules_of(alloc, list)?;
    let others = rules_of(alloc, other)?;
    Ok(rules.same(&others))
}

fn copies(alloc: Global, list: &str) -> Result<bool, Fail> {
    let rules = rules_of(alloc, list)?;
    let copy = rules.copy(alloc)?;
    Ok(copy.same(&rules))
}

const SOME_RULES: &str = "COM\t// x\n公司.cn\r\n＊.mm \n!!x.mm";

const IN_OTHER_WORDS: &str = "xn--55qx5d.CN\n*.mm\n!！x.mm\ncom\n*.mm";

const NO_EXCEPTION: &str = "com\nxn--55qx5d.cn\n*.mm\n！x.mm";

// White space ends a rule. Labels are brought to ASCII form, so a full-width star is the wildcard
// and a full-width `!` is part of a label.
#[test]
fn rules_in_other_forms(rt: HostRuntime) -> Result<(), Fail> {
    assert_so(
        &rt,
        are_same(rt.alloc(), SOME_RULES, IN_OTHER_WORDS)?,
        "in other words",
    );
    assert_so(
        &rt,
        !are_same(rt.alloc(), SOME_RULES, NO_EXCEPTION)?,
        "no exception",
    );
    assert_so(&rt, copies(rt.alloc(), SOME_RULES)?, "a copy");
    Ok(())
}

// The labels lead from the top to a node, at which a rule ends or none does.
fn ends(rules: &Suffixes, labels: &str, exception: bool) -> Option<bool> {
    let mut node = rules.top();
    for label in labels.split(' ') {
        node = node.child(label.as_bytes())?;
    }
    Some(node.has(exception))
}

// The labels of a node, and whether a rule ends there, or an exception; there is no node for some.
const NODES: &str = "b | rule | no
b q | rule | yes
b * | rule | no
b * a | rule | yes
b q x | exception | yes
b q x | rule | no
b c | rule | none
* | rule | none";

fn end_word(end: Option<bool>) -> &'static str {
    match end {
        Some(true) => "yes",
        Some(false) => "no",
        None => "none",
    }
}

fn assert_end(rt: &impl Abort, rules: &Suffixes, line: &str) -> Result<(), Fail> {
    let (labels, more) = parts(line)?;
    let (kind, wanted) = parts(more)?;
    let found = end_word(ends(rules, labels, kind == "exception"));
    assert_word(rt, found, wanted, line);
    Ok(())
}

fn assert_ends(rt: &impl Abort, rules: &Suffixes, lines: &str) -> Result<(), Fail> {
    for line in lines.split('\n') {
        assert_end(rt, rules, line)?;
    }
    Ok(())
}

// A label leads to what goes on with it, and `*` is a label there.
#[test]
fn nodes_of_the_tree(rt: HostRuntime) -> Result<(), Fail> {
    let rules = rules_of(rt.alloc(), "q.b\na.*.b\n!x.q.b")?;
    assert_ends(&rt, &rules, NODES)
}

#[test]
fn top_without_rules(rt: HostRuntime) {
    let rules = Suffixes::new(rt.alloc());
    assert_so(&rt, !rules.top().has(false), "no rule");
}

fn push_labels(name: &mut String, labels: u32) -> Result<(), Fail> {
    for _ in 0..labels {
        name.push_str("a.")?;
    }
    name.push('b')?;
    Ok(())
}

// A name with so many labels more than `b`.
fn long_name(alloc: Global, labels: u32) -> Result<String, Fail> {
    let mut name = String::new(alloc);
    push_labels(&mut name, labels)?;
    Ok(name)
}

fn add_long_rule(rules: &mut Suffixes, alloc: Global) -> Result<(), Fail> {
    let rule = long_name(alloc, 30_000)?;
    rules.read_line(rule.as_str())?;
    rules.read_line(rule.as_str())?;
    Ok(())
}

// A copy of these rules, which is the same.
fn same_copy(rt: &impl Abort, alloc: Global, rules: &Suffixes) -> Result<Suffixes, Fail> {
    let copy = rules.copy(alloc)?;
    assert_so(rt, copy.same(rules), "a copy");
    Ok(copy)
}

fn long_copy(rt: &impl Abort, alloc: Global) -> Result<Suffixes, Fail> {
    let mut rules = Suffixes::new(alloc);
    add_long_rule(&mut rules, alloc)?;
    same_copy(rt, alloc, &rules)
}

fn finds_long_name(alloc: Global, rules: &Suffixes) -> Result<bool, Fail> {
    let name = long_name(alloc, 30_001)?;
    Ok(rules.registrable_name(name.as_bytes()).unwrap_or(b"") == name.as_bytes())
}

// A rule may have more labels than calls can be nested: it is added, added again, copied, looked
// up and let go.
#[test]
fn long_rules(rt: HostRuntime) -> Result<(), Fail> {
    let copy = long_copy(&rt, rt.alloc())?;
    assert_so(&rt, finds_long_name(rt.alloc(), &copy)?, "the long name");
    Ok(())
}

// The rules on which the published cases stand.
const LISTED_RULES: &str =
    "ac\nbiz\ncom\nuk.com\n*.ck\n!www.ck\ncn\ncom.cn\n公司.cn\n中国\njp\nac.jp\nkyoto.jp\n\
    ide.kyoto.jp\n*.kobe.jp\n!city.kobe.jp\n*.mm\nus\nak.us\nk12.ak.us";

// The Public Suffix List's published test cases. Mixed case and Unicode go through a URL's host.
const PUBLISHED: &str = "COM \n\
    example.COM example.com\n\
    WwW.example.COM example.com\n\
    .com \n\
    .example \n\
    .example.com \n\
    .example.example \n\
    example \n\
    example.example example.example\n\
    b.example.example example.example\n\
    a.b.example.example example.example\n\
    biz \n\
    domain.biz domain.biz\n\
    b.domain.biz domain.biz\n\
    a.b.domain.biz domain.biz\n\
    com \n\
    example.com example.com\n\
    b.example.com example.com\n\
    a.b.example.com example.com\n\
    uk.com \n\
    example.uk.com example.uk.com\n\
    b.example.uk.com example.uk.com\n\
    a.b.example.uk.com example.uk.com\n\
    test.ac test.ac\n\
    mm \n\
    c.mm \n\
    b.c.mm b.c.mm\n\
    a.b.c.mm b.c.mm\n\
    jp \n\
    test.jp test.jp\n\
    www.test.jp test.jp\n\
    ac.jp \n\
    test.ac.jp test.ac.jp\n\
    www.test.ac.jp test.ac.jp\n\
    kyoto.jp \n\
    test.kyoto.jp test.kyoto.jp\n\
    ide.kyoto.jp \n\
    b.ide.kyoto.jp b.ide.kyoto.jp\n\
    a.b.ide.kyoto.jp b.ide.kyoto.jp\n\
    c.kobe.jp \n\
    b.c.kobe.jp b.c.kobe.jp\n\
    a.b.c.kobe.jp b.c.kobe.jp\n\
    city.kobe.jp city.kobe.jp\n\
    www.city.kobe.jp city.kobe.jp\n\
    ck \n\
    test.ck \n\
    b.test.ck b.test.ck\n\
    a.b.test.ck b.test.ck\n\
    www.ck www.ck\n\
    www.www.ck www.ck\n\
    us \n\
    test.us test.us\n\
    www.test.us test.us\n\
    ak.us \n\
    test.ak.us test.ak.us\n\
    www.test.ak.us test.ak.us\n\
    k12.ak.us \n\
    test.k12.ak.us test.k12.ak.us\n\
    www.test.k12.ak.us test.k12.ak.us\n\
    食狮.com.cn xn--85x722f.com.cn\n\
    食狮.公司.cn xn--85x722f.xn--55qx5d.cn\n\
    www.食狮.公司.cn xn--85x722f.xn--55qx5d.cn\n\
    shishi.公司.cn shishi.xn--55qx5d.cn\n\
    公司.cn \n\
    食狮.中国 xn--85x722f.xn--fiqs8s\n\
    www.食狮.中国 xn--85x722f.xn--fiqs8s\n\
    shishi.中国 shishi.xn--fiqs8s\n\
    中国 \n\
    xn--85x722f.com.cn xn--85x722f.com.cn\n\
    xn--85x722f.xn--55qx5d.cn xn--85x722f.xn--55qx5d.cn\n\
    www.xn--85x722f.xn--55qx5d.cn xn--85x722f.xn--55qx5d.cn\n\
    shishi.xn--55qx5d.cn shishi.xn--55qx5d.cn\n\
    xn--55qx5d.cn \n\
    xn--85x722f.xn--fiqs8s xn--85x722f.xn--fiqs8s\n\
    www.xn--85x722f.xn--fiqs8s xn--85x722f.xn--fiqs8s\n\
    shishi.xn--fiqs8s shishi.xn--fiqs8s\n\
    xn--fiqs8s ";

#[test]
fn published_cases(rt: HostRuntime) -> Result<(), Fail> {
    right_by(&rt, rt.alloc(), LISTED_RULES, PUBLISHED)
}
