// A reply over a stand-in for a socket, which counts its writes and keeps what it takes.
use http_forms::{Answer, write_reply};
use machine_outside::{Together, Writing};
use script_value::{Bytes, Reply};
use std::alloc::Global;
use std::io;
use std::io::Write;
use std::test::Fail;

// A socket that takes at most so many bytes at a write.
#[derive(Drop)]
struct CountingSocket {
    most: usize,
    writes: u64,
    flushes: u64,
    bytes: Vec<u8>,
}

impl Write for CountingSocket {
    fn write(&mut self, piece: &[u8]) -> io::Result<usize> {
        self.writes = self.writes.saturating_add(1);
        let count = piece.len().min(self.most);
        self.bytes.extend_from_slice(&piece[..count])?;
        Ok(count)
    }

    fn flush(&mut self) -> io::Result<()> {
        self.flushes = self.flushes.saturating_add(1);
        Ok(())
    }
}

type Output = Together<Writing<CountingSocket>>;

fn output(alloc: Global, most: usize) -> Output {
    let inner = CountingSocket {
        most,
        writes: 0,
        flushes: 0,
        bytes: Vec::new(alloc),
    };
    Together::new(alloc, Writing { inner, count: 0 })
}

// A last page of so many bytes.
fn page(alloc: Global, size: usize) -> Result<Answer, Fail> {
    let mut bytes = Vec::new(alloc);
    bytes.resize(size, b'x')?;
    Ok(Answer::Reply(Reply::Finished(Bytes::new(bytes))))
}

// What a socket got of two replies with pages of so many bytes.
fn two_replies(rt: &HostRuntime, size: usize, most: usize) -> Result<Output, Fail> {
    let mut output = output(rt.alloc(), most);
    let answer = page(rt.alloc(), size)?;
    write_reply(&answer, false, &mut output)?;
    write_reply(&answer, true, &mut output)?;
    Ok(output)
}

fn socket(output: &Output) -> &CountingSocket {
    &output.below().inner
}

#[test]
fn each_reply_is_one_write(rt: HostRuntime) -> Result<(), Fail> {
    // A head has 101 bytes and the digits of the length, and 5 less where it closes.
    for (size, length) in [(0, 199), (9, 217), (9_000, 18_205), (300_000, 600_209)] {
        let output = two_replies(&rt, size, usize::MAX)?;
        let socket = socket(&output);
        assert_eq!(rt; (socket.writes, socket.flushes), (2, 2), "{size}");
        assert_eq!(rt; socket.bytes.len(), length, "{size}");
    }
    Ok(())
}

#[test]
fn what_a_socket_does_not_take_follows(rt: HostRuntime) -> Result<(), Fail> {
    let whole = two_replies(&rt, 9_000, usize::MAX)?;
    let parts = two_replies(&rt, 9_000, 4_000)?;
    assert_eq!(rt; socket(&parts).writes, 6);
    assert!(rt; socket(&parts).bytes == socket(&whole).bytes);
    Ok(())
}
