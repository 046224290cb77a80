// Traces that are refused: one line, the number and 0.
use crate::traces::lists;
use std::test::Fail;

#[test]
fn under_seven_bytes_or_another_mark(rt: HostRuntime) -> Result<(), Fail> {
    lists(&rt, b"", b"61 0\n")?;
    lists(&rt, b"RAD", b"61 0\n")?;
    lists(&rt, b"RAD\x00\x01\x00", b"61 0\n")?;
    lists(&rt, b"SAD\x00\x01\x00\x00", b"61 0\n")?;
    lists(&rt, b"RBD\x00\x01\x00\x00", b"61 0\n")?;
    lists(&rt, b"RAT\x00\x01\x00\x00", b"61 0\n")?;
    // the mark is judged before version and length
    lists(&rt, b"rad\x00\x02\x00\x09", b"61 0\n")
}

#[test]
fn another_version(rt: HostRuntime) -> Result<(), Fail> {
    lists(&rt, b"RAD\x00\x00\x00\x00", b"62 0\n")?;
    lists(&rt, b"RAD\x00\x02\x00\x00", b"62 0\n")?;
    lists(&rt, b"RAD\x01\x00\x00\x00", b"62 0\n")?;
    // the version is judged before the length
    lists(&rt, b"RAD\x00\x02\x00\x01", b"62 0\n")
}

#[test]
fn another_length(rt: HostRuntime) -> Result<(), Fail> {
    lists(&rt, b"RAD\x00\x01\x00\x01\x00", b"63 0\n")?;
    lists(&rt, b"RAD\x00\x01\x00\x01\x00\x05\x00", b"63 0\n")?;
    lists(&rt, b"RAD\x00\x01\x00\x00\x00", b"63 0\n")?;
    // the count's high byte comes first
    lists(&rt, b"RAD\x00\x01\x01\x00\x00\x05", b"63 0\n")
}
