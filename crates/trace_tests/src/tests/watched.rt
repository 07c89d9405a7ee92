use std::io::Write;
use trace_cli::Watched;

#[test]
fn calls_are_passed_on_and_counted(rt: HostRuntime) {
    let mut reader = Watched::new(b"abc".as_slice());
    let mut writer = Watched::new(Vec::new(rt.alloc()));
    let mut two = [0; 2];
    assert!(rt; reader.read_beside(&writer, &mut two).ok() == Some(2));
    assert!(rt; two == *b"ab");
    assert!(rt; reader.calls() == 1);
    assert!(rt; writer.write(b"abc").ok() == Some(3));
    assert!(rt; !writer.flushed());
    assert!(rt; writer.flush().is_ok() && writer.flushed());
    assert!(rt; writer.calls() == 1);
    assert!(rt; !writer.failed() && !reader.failed());
    let written = writer.into_inner();
    assert!(rt; written.as_slice() == b"abc".as_slice());
}
