// Traces that are listed, whole or as far as the spare goes.
use crate::traces::{lines, lists, repeated};
use std::test::Fail;

#[test]
fn short_traces(rt: HostRuntime) -> Result<(), Fail> {
    lists(&rt, b"RAD\x00\x01\x00\x00", b"0 0\n")?;
    lists(
        &rt,
        b"RAD\x00\x01\x00\x02\x00\x00\xff\xff",
        b"0\n65535\n0 2\n",
    )?;
    lists(
        &rt,
        b"RAD\x00\x01\x00\x03\x09\xc4\x00\x03\xff\xff",
        b"2500\n3\n65535\n0 3\n",
    )
}

#[test]
fn spare_ends_first(rt: HostRuntime) -> Result<(), Fail> {
    // 4,096 bytes take 682 lines of 6 bytes, and 4 bytes are left over
    let input = repeated(rt.alloc(), 12345, 799, 12345)?;
    let expected = lines(rt.alloc(), b"12345\n", 682, b"32 682\n")?;
    lists(&rt, input.as_slice(), expected.as_slice())
}

#[test]
fn spare_is_met_exactly(rt: HostRuntime) -> Result<(), Fail> {
    let input = repeated(rt.alloc(), 12345, 682, 123)?;
    let expected = lines(rt.alloc(), b"12345\n", 682, b"123\n0 683\n")?;
    lists(&rt, input.as_slice(), expected.as_slice())
}

#[test]
fn spare_is_missed_by_one(rt: HostRuntime) -> Result<(), Fail> {
    let input = repeated(rt.alloc(), 12345, 682, 1234)?;
    let expected = lines(rt.alloc(), b"12345\n", 682, b"32 682\n")?;
    lists(&rt, input.as_slice(), expected.as_slice())
}

#[test]
fn as_many_radii_as_the_count_can_say(rt: HostRuntime) -> Result<(), Fail> {
    // 2,048 lines of 2 bytes fill the spare
    let input = repeated(rt.alloc(), 7, 65534, 7)?;
    let expected = lines(rt.alloc(), b"7\n", 2048, b"32 2048\n")?;
    lists(&rt, input.as_slice(), expected.as_slice())
}
