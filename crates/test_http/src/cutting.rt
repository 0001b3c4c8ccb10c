//! Streams that are cut off.
use room_http::Ended;
use std::alloc::Global;
use std::test::Fail;
use test_memory::MemDesk;
use test_player::open_keep;
use test_talk::{PUT_TWICE, Pieces, Sink, bytes_at, converse, is_short, same_bytes};

// A stream that ends after so many bytes.
fn cut_after(alloc: Global, input: &[u8], wanted: &[u8], count: usize) -> Result<(), Fail> {
    let mut desk = MemDesk::new(open_keep(alloc)?);
    let mut reader = Pieces::new(&input[..count.min(input.len())], 1000);
    let talk = converse(alloc, &mut desk, 1000, &mut reader, Sink::new(alloc))?;
    let (end, length) = match count {
        0 => (Ended::Clean, 0),
        64 => (Ended::Clean, 43),
        128 => (Ended::Clean, wanted.len()),
        _ if count < 64 => (Ended::Cut, 0),
        _ => (Ended::Cut, 43),
    };
    if is_short(&talk) {
        return Err(Fail::new("want of memory"));
    }
    if talk.end != Ok(end) {
        return Err(Fail::new(format_args!("{:?} after {count}", talk.end)));
    }
    same_bytes(talk.sent.written(), &wanted[..length.min(wanted.len())])
}

#[test]
fn stream_cut_anywhere(rt: HostRuntime) -> Result<(), Fail> {
    let input = bytes_at(rt.alloc(), PUT_TWICE, ">")?;
    let wanted = bytes_at(rt.alloc(), PUT_TWICE, "<")?;
    assert_eq!(rt; input.len(), 128);
    'cuts: for count in 0..129 {
        cut_after(rt.alloc(), input.as_slice(), wanted.as_slice(), count)?;
    }
    Ok(())
}
