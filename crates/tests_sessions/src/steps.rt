//! What callers conclude of steps, over a real session.
ghost use Rattle.std.specs.Prelude.{◌≡◌, ◌<◌};

use fed_io::Steps;
use fed_origin::WebUrl;
use fed_script::read_header;
use fed_session::Session;
use std::alloc::Global;
use std::marker::Brand;
use std::sync::ledger::{Blank, Ledger};
use std::test::Fail;
use tests_callers::sessions::load_twice;

// Loads a page twice in a new session: whether the loads found memory.
fn loads<L: Ledger>(alloc: Global, blank: Blank) -> Result<(bool, bool), Fail>
    requires name { blank.name ≡ L.name }
    requires parts { blank.parts ≡ L.parts }
    requires some { 0 < L.parts }
{
    let Ok(header) = read_header(alloc, br#"{"fedcm":1,"now":1700000000,"rules":"example"}"#) else {
        return Err(Fail::from("the header is not read"));
    };
    let Ok(url) = WebUrl::read(alloc, "https://shop.example/") else {
        return Err(Fail::from("the URL is not read"));
    };
    let mut session = Session::new(alloc, header)?;
    let mut steps: Steps<L> = Steps::new(blank);
    Ok(load_twice(&mut session, url, &mut steps))
}

#[test]
fn a_page_is_loaded_twice(rt: HostRuntime) -> Result<(), Fail> {
    assert_eq!(rt; loads::<Brand>(rt.alloc(), Blank::new(1))?, (true, true));
    Ok(())
}
