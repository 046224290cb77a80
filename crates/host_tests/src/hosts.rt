// The text host and the tracer host.
use crate::made::text_host;
use host::checks::CheckError;
use host::hosts::Host;
use host::refusals::Refusal;
use print_buffer::buffers::PrintBuffer;
use std::process::Abort;
use std::test::Fail;
use text_host::checked::CheckedText;
use text_host::flaws::TextFlaw;
use text_host::hosts::TextHost;
use tracer_host::checked::CheckedTrace;
use tracer_host::frame_buffers::FrameBuffer;
use tracer_host::hosts::TracerHost;

// Takes a line into a place of 4 bytes, and compares the answer and the place.
fn takes(rt: &impl Abort, host: &mut TextHost, answer: Result<usize, Refusal>, after: &[u8; 4]) {
    let mut place = [b'.'; 4];
    assert_eq!(rt; host.take(&mut place), answer);
    assert_eq!(rt; &place, after);
}

#[test]
fn lines_of_a_text(rt: HostRuntime) -> Result<(), Fail> {
    let mut host = text_host(&rt, b"ab\n\nlonger\rc\nd", 0)?;
    assert_eq!(rt; host.waits(), Some(2));
    takes(&rt, &mut host, Ok(2), b"ab..");
    assert_eq!(rt; host.waits(), Some(0));
    takes(&rt, &mut host, Ok(0), b"....");
    // a carriage return stays in its line, which is too long for the place and still waits
    assert_eq!(rt; host.waits(), Some(8));
    takes(&rt, &mut host, Err(Refusal::TooLong), b"....");
    assert_eq!(rt; host.waits(), Some(8));
    let mut place = [b'.'; 8];
    assert_eq!(rt; host.take(&mut place), Ok(8));
    assert_eq!(rt; &place, b"longer\rc");
    takes(&rt, &mut host, Ok(1), b"d...");
    assert_eq!(rt; host.waits(), None);
    takes(&rt, &mut host, Err(Refusal::NoLine), b"....");
    Ok(())
}

#[test]
fn no_lines_in_no_bytes(rt: HostRuntime) -> Result<(), Fail> {
    let out = PrintBuffer::new(rt.alloc(), 0)?;
    let mut host = TextHost::new(CheckedText::empty(rt.alloc()), out);
    assert_eq!(rt; host.waits(), None);
    // no line waits is told before the place is too short
    assert_eq!(rt; host.take(&mut []), Err(Refusal::NoLine));
    let one = text_host(&rt, b"\n", 0)?;
    assert_eq!(rt; one.waits(), Some(0));
    Ok(())
}

#[test]
fn puts_up_to_the_spare(rt: HostRuntime) -> Result<(), Fail> {
    let mut host = text_host(&rt, b"", 260)?;
    let long = [b'x'; 260];
    // 32 comes before 33
    assert_eq!(rt; host.put(&long), Err(Refusal::NoSpare));
    assert_eq!(rt; host.put(&long[0..256]), Err(Refusal::TooLong));
    assert_eq!(rt; host.spare(), 260);
    assert_eq!(rt; host.put(&long[0..255]), Ok(()));
    assert_eq!(rt; host.spare(), 4);
    assert_eq!(rt; host.put(b"four"), Err(Refusal::NoSpare));
    assert_eq!(rt; host.put(b"ab"), Ok(()));
    assert_eq!(rt; host.put(b""), Ok(()));
    assert_eq!(rt; host.spare(), 0);
    assert_eq!(rt; host.put(b""), Err(Refusal::NoSpare));
    let printed = host.printed();
    assert!(rt; printed.len() == 260);
    assert_eq!(rt; &printed[254..], b"x\nab\n\n".as_slice());
    Ok(())
}

#[test]
fn long_lines_are_refused(rt: HostRuntime) -> Result<(), Fail> {
    let mut text = [b'x'; 514];
    text[255] = b'\n';
    text[511] = b'\n';
    assert!(rt; CheckedText::check(rt.alloc(), &text).is_ok());
    text[511] = b'x';
    let Err(CheckError::Flawed(flaw)) = CheckedText::check(rt.alloc(), &text) else {
        return Err(Fail::new("a line of 256 bytes is taken"));
    };
    assert_eq!(rt; flaw.number(), 64);
    Ok(())
}

#[test]
fn radii_and_frames(rt: HostRuntime) -> Result<(), Fail> {
    let trace = CheckedTrace::check(rt.alloc(), b"RAD\x00\x01\x00\x02\x00\x07\x30\x39")?;
    let mut host = TracerHost::new(trace, FrameBuffer::new(rt.alloc(), 6)?);
    let mut place = [b'.'; 6];
    assert_eq!(rt; host.waits(), Some(1));
    assert_eq!(rt; host.take(&mut place), Ok(1));
    assert_eq!(rt; &place, b"7.....");
    assert_eq!(rt; host.take(&mut []), Err(Refusal::TooLong));
    assert_eq!(rt; host.take(&mut place), Ok(5));
    assert_eq!(rt; &place, b"12345.");
    assert_eq!(rt; host.take(&mut place), Err(Refusal::NoLine));
    assert_eq!(rt; host.put(b"ab"), Ok(()));
    assert_eq!(rt; host.put(b"abc"), Err(Refusal::NoSpare));
    assert_eq!(rt; host.put(b""), Ok(()));
    assert_eq!(rt; host.spare(), 2);
    assert_eq!(rt; host.frames(), b"\x02ab\x00".as_slice());
    let empty = TracerHost::new(
        CheckedTrace::empty(rt.alloc()),
        FrameBuffer::new(rt.alloc(), 0)?,
    );
    assert_eq!(rt; empty.waits(), None);
    Ok(())
}
