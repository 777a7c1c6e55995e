use outside::memory_sink::MemorySink;
use outside::rows::CallList;
use outside::sink::{Sink, SinkFault};
use outside::stdout_sink::StdoutSink;
use std::test::Fail;

#[test]
fn takes_so_many_bytes_and_fails_when_told(rt: HostRuntime) -> Result<(), Fail> {
    let mut failing = CallList::new(rt.alloc());
    failing.push(2)?;
    let mut sink = MemorySink::new(rt.alloc(), 3, failing);
    assert_eq!(rt; sink.write(b"abcde"), Ok(3));
    assert_eq!(rt; sink.write(b"de"), Err(SinkFault::Failed));
    assert_eq!(rt; sink.write(b"de"), Ok(2));
    assert_eq!(rt; sink.written(), b"abcde".as_slice());
    Ok(())
}

#[test]
fn writes_a_piece_and_answers_its_length(rt: HostRuntime) {
    let mut sink = StdoutSink::new(&rt);
    assert_eq!(rt; sink.write(b"a piece\n"), Ok(8));
}
