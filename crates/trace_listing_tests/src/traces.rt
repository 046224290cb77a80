// Trace files for tests, and what they list.
use std::alloc::{AllocError, Global};
use std::process::Abort;
use std::test::Fail;
use trace_listing::listings::list_trace;

// The trace `input` lists `output`.
pub fn lists(rt: &(impl Abort + AllocGlobal), input: &[u8], output: &[u8]) -> Result<(), Fail> {
    let listing = list_trace(rt.alloc(), input)?;
    assert_eq!(rt; listing.bytes(), output);
    Ok(())
}

// Appends `part` so many times.
fn append_times(bytes: &mut Vec<u8>, part: &[u8], times: u16) -> Result<(), AllocError> {
    for _ in 0..times {
        bytes.extend_from_slice(part)?;
    }
    Ok(())
}

// A file whose radii are `times` times `radius` and then `last`; the count says one more than `times`.
pub fn repeated(heap: Global, radius: u16, times: u16, last: u16) -> Result<Vec<u8>, AllocError> {
    let mut file = Vec::from_slice(heap, b"RAD\x00\x01")?;
    file.extend_from_slice(&times.wrapping_add(1).to_be_bytes())?;
    append_times(&mut file, &radius.to_be_bytes(), times)?;
    file.extend_from_slice(&last.to_be_bytes())?;
    Ok(file)
}

// `line` so many times, and then `rest`.
pub fn lines(heap: Global, line: &[u8], times: u16, rest: &[u8]) -> Result<Vec<u8>, AllocError> {
    let mut text = Vec::new(heap);
    append_times(&mut text, line, times)?;
    text.extend_from_slice(rest)?;
    Ok(text)
}
