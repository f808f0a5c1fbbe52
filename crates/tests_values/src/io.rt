ghost use Rattle.std.specs.Prelude.{◌≡◌, ◌<◌};

use fed_io::{
    Bytes, Failed, Items, MemSink, MemSource, Placed, QuietSink, QuietSource, SharedValue, Sink,
    Source, StdSink, StdSource, Steps, Text, copy_placed, lent_text, placed_text, put_all,
};
use std::io::{self, Cursor, Read, Write};
use std::marker::Brand;
use std::sync::ledger::{Blank, Ledger};
use std::test::Fail;

#[test]
fn texts_bytes_and_items_are_copied(rt: HostRuntime) -> Result<(), Fail> {
    let alloc = rt.alloc();
    let text = Text::of(alloc, "grüße")?;
    assert_eq!(rt; text.as_str(), "grüße");
    assert!(rt; text.copy(alloc)? == text);
    assert!(rt; text < Text::of(alloc, "h")?);
    let bytes = Bytes::of(alloc, b"\xffa")?;
    assert_eq!(rt; bytes.copy(alloc)?.as_slice(), b"\xffa".as_slice());
    assert!(rt; Bytes::from_vec(Vec::new(alloc)) < bytes);
    let mut items = Items::new(alloc);
    items.push(7)?;
    items.push(8)?;
    assert_eq!(rt; items.len(), 2);
    assert_eq!(rt; items.as_slice(), [7, 8].as_slice());
    assert_eq!(rt; Items::from_vec(items.into_vec()).len(), 2);
    let placed = Placed::new(alloc, 9)?;
    assert_eq!(rt; *placed.get(), 9);
    assert_eq!(rt; placed.open(), 9);
    let shared = SharedValue::new(alloc, 9)?;
    assert_eq!(rt; *shared.copy()?.get(), 9);
    let placed = placed_text(alloc, Some("t"))?;
    let copy = copy_placed(alloc, &placed)?;
    assert_eq!(rt; lent_text(&copy).map(Text::as_str), Some("t"));
    assert!(rt; placed_text(alloc, None)?.is_none());
    Ok(())
}

#[test]
fn a_memory_source_gives_pieces_and_fails_where_told(rt: HostRuntime) -> Result<(), Fail> {
    let alloc = rt.alloc();
    let fail = [2, 2].to_vec(alloc)?;
    let mut source = MemSource::new(b"abcde".to_vec(alloc)?, 2, fail);
    let mut buf = [0u8; 4];
    assert_eq!(rt; source.take(&mut buf), Ok(2));
    assert_eq!(rt; source.take(&mut buf), Err(Failed));
    assert_eq!(rt; source.take(&mut buf[..1]), Ok(1));
    assert_eq!(rt; buf, *b"cb\0\0");
    assert_eq!(rt; source.take(&mut buf), Ok(2));
    assert_eq!(rt; source.take(&mut buf), Ok(0));
    assert_eq!(rt; buf, *b"de\0\0");
    Ok(())
}

#[test]
fn a_memory_sink_takes_a_front_and_fails_where_told(rt: HostRuntime) -> Result<(), Fail> {
    let alloc = rt.alloc();
    let fail = [3].to_vec(alloc)?;
    let mut sink = MemSink::new(alloc, 6, 4, fail)?;
    assert_eq!(rt; put_all(&mut sink, b"abcde"), Ok(()));
    assert_eq!(rt; sink.put(b"f"), Err(Failed));
    assert_eq!(rt; put_all(&mut sink, b"gh"), Err(Failed));
    assert_eq!(rt; sink.taken(), b"abcdeg".as_slice());
    Ok(())
}

#[test]
fn quiet_ones_never_fail(rt: HostRuntime) -> Result<(), Fail> {
    let alloc = rt.alloc();
    let mut source = QuietSource::new(b"abc".to_vec(alloc)?);
    let mut buf = [0u8; 2];
    assert_eq!(rt; source.take(&mut buf), Ok(2));
    assert_eq!(rt; source.take(&mut buf), Ok(1));
    assert_eq!(rt; source.take(&mut buf), Ok(0));
    let mut sink = QuietSink::new();
    assert_eq!(rt; put_all(&mut sink, b"abcde"), Ok(()));
    assert_eq!(rt; sink.count(), 5);
    Ok(())
}

// A reader and a writer that fail.
#[derive(Drop)]
struct Broken;

impl Read for Broken {
    fn read(&mut self, _buf: &mut [u8]) -> io::Result<usize> {
        Err(io::Error::from(io::ErrorKind::BrokenPipe))
    }
}

impl Write for Broken {
    fn write(&mut self, _buf: &[u8]) -> io::Result<usize> {
        Err(io::Error::from(io::ErrorKind::BrokenPipe))
    }

    fn flush(&mut self) -> io::Result<()> {
        Ok(())
    }
}

#[test]
fn a_std_source_gives_what_its_reader_gives(rt: HostRuntime) -> Result<(), Fail> {
    let mut source = StdSource::new(Cursor::new(b"abc".as_slice()));
    let mut buf = [0u8; 2];
    assert_eq!(rt; source.take(&mut buf), Ok(2));
    assert_eq!(rt; buf, *b"ab");
    assert_eq!(rt; source.take(&mut buf), Ok(1));
    assert_eq!(rt; source.take(&mut buf), Ok(0));
    assert_eq!(rt; StdSource::new(Broken).take(&mut buf), Err(Failed));
    Ok(())
}

#[test]
fn a_std_sink_gives_on_what_it_takes(rt: HostRuntime) -> Result<(), Fail> {
    let alloc = rt.alloc();
    let mut written = Vec::new(alloc);
    let mut sink = StdSink::new(&mut written);
    assert_eq!(rt; put_all(&mut sink, b"abc"), Ok(()));
    drop(sink);
    assert_eq!(rt; written.as_slice(), b"abc".as_slice());
    assert_eq!(rt; StdSink::new(Broken).put(b"abc"), Err(Failed));
    Ok(())
}

// Takes a step, and answers how many bytes the counter takes.
fn ticked<L: Ledger>(blank: Blank) -> usize
    requires name { blank.name ≡ L.name }
    requires parts { blank.parts ≡ L.parts }
    requires some { 0 < L.parts }
{
    let mut steps: Steps<L> = Steps::new(blank);
    steps.tick();
    size_of::<Steps<L>>()
}

#[test]
fn a_counter_takes_no_bytes(rt: HostRuntime) {
    assert_eq!(rt; ticked::<Brand>(Blank::new(1)), 0);
}
