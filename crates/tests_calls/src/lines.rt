//! Lines of tables and steps, and what is asserted of them. Assertions with a message stand here alone: inlined, each one costs
//! its caller seconds of proof.
use std::process::Abort;
use std::test::Fail;

// The parts of a line round its first bar.
pub fn parts(line: &str) -> Result<(&str, &str), Fail> {
    Ok(line.split_once(" | ").ok_or("a line")?)
}

// That something is so, of this line.
pub fn assert_so(rt: &impl Abort, is_so: bool, line: &str) {
    assert!(rt; is_so, "{line}");
}

// That a word is the one which this line wants.
pub fn assert_word(rt: &impl Abort, found: &str, wanted: &str, line: &str) {
    assert_eq!(rt; found, wanted, "{line}");
}
