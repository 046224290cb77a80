// Layers, a host chosen at run time, and copying.
use crate::made::text_host;
use copying::answers::{Copied, Ending};
use copying::copies::copy_lines;
use host::choices::EitherHost;
use host::hosts::Host;
use host::quotas::Quota;
use host::refusals::Refusal;
use std::test::Fail;
use text_host::hosts::TextHost;
use tracer_host::checked::CheckedTrace;
use tracer_host::frame_buffers::FrameBuffer;
use tracer_host::hosts::TracerHost;

#[test]
fn quota_over_quota(rt: HostRuntime) -> Result<(), Fail> {
    let mut pile = Quota {
        allowance: 9,
        below: Quota {
            allowance: 5,
            below: text_host(&rt, b"line", 7)?,
        },
    };
    assert_eq!(rt; pile.spare(), 5);
    assert_eq!(rt; pile.waits(), Some(4));
    assert_eq!(rt; pile.put(b"hello"), Err(Refusal::NoSpare));
    assert_eq!(rt; pile.allowance, 9);
    assert_eq!(rt; pile.put(b"hi"), Ok(()));
    assert_eq!(rt; pile.allowance, 6);
    assert_eq!(rt; pile.below.allowance, 2);
    assert_eq!(rt; pile.spare(), 2);
    assert_eq!(rt; pile.put(b""), Ok(()));
    assert_eq!(rt; pile.below.below.printed(), b"hi\n\n".as_slice());
    Ok(())
}

// Either host by a flag, as a program chooses one.
fn chosen(rt: &HostRuntime, tracer: bool) -> Result<EitherHost<TextHost, TracerHost>, Fail> {
    if tracer {
        let frames = FrameBuffer::new(rt.alloc(), 8)?;
        Ok(EitherHost::Second(TracerHost::new(CheckedTrace::empty(rt.alloc()), frames)))
    } else {
        Ok(EitherHost::First(text_host(rt, b"a", 4)?))
    }
}

#[test]
fn a_host_chosen_at_run_time(rt: HostRuntime) -> Result<(), Fail> {
    let mut text = chosen(&rt, false)?;
    assert_eq!(rt; text.waits(), Some(1));
    assert_eq!(rt; text.spare(), 4);
    let mut tracer = chosen(&rt, true)?;
    assert_eq!(rt; tracer.waits(), None);
    assert_eq!(rt; tracer.spare(), 8);
    assert_eq!(rt; tracer.put(b"abc"), Ok(()));
    assert_eq!(rt; tracer.spare(), 4);
    let went = copy_lines(&mut text, &mut tracer);
    assert_eq!(rt;
        went,
        Copied {
            count: 1,
            ending: Ending::AllCopied,
        }
    );
    assert_eq!(rt; tracer.spare(), 2);
    Ok(())
}

#[test]
fn a_line_that_does_not_fit_still_waits(rt: HostRuntime) -> Result<(), Fail> {
    let mut from = text_host(&rt, b"one\ntwo\nthree\nfour\n", 0)?;
    let mut to = text_host(&rt, b"", 13)?;
    let went = copy_lines(&mut from, &mut to);
    assert_eq!(rt;
        went,
        Copied {
            count: 2,
            ending: Ending::NoSpare,
        }
    );
    assert_eq!(rt; from.waits(), Some(5));
    assert_eq!(rt; to.printed(), b"one\ntwo\n".as_slice());
    assert_eq!(rt; to.spare(), 5);
    let mut more = text_host(&rt, b"", 11)?;
    assert_eq!(rt;
        copy_lines(&mut from, &mut more),
        Copied {
            count: 2,
            ending: Ending::AllCopied,
        }
    );
    assert_eq!(rt; more.printed(), b"three\nfour\n".as_slice());
    Ok(())
}
