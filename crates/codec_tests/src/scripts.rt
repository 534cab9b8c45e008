use afs_base::{ClientNo, Failed, Kind, PageData, Path, Slot};
use caps::{Capability, Denied, DeniedWhy};
use script_text::{
    Command, FileName, Files17, Line, LineRefusal, LineReply, LineWhy, MemSink, MemSource, Mode,
    Script, ScriptRefused, Serials, Sink, Source, parse, print_reply,
};
use std::alloc::{AllocError, Global};
use std::process::Abort;
use std::test::Fail;
use tree_model::{Child, Reply, Step};

mod causes;
mod lines;
mod replies;

fn bad(line: u32, why: LineWhy) -> ScriptRefused {
    ScriptRefused::BadLine { line, why }
}

#[test]
fn fails_at_the_listed_calls(rt: HostRuntime) -> Result<(), Fail> {
    let alloc = rt.alloc();
    let mut source = MemSource::of(vec![in alloc; 1, 2, 3]?, vec![in alloc; 2]?);
    let mut buffer = [0; 2];
    assert_eq!(rt; source.read(&mut buffer), Ok(2));
    assert_eq!(rt; source.read(&mut buffer), Err(Failed));
    assert_eq!(rt; source.read(&mut buffer), Ok(1));
    assert_eq!(rt; source.read(&mut buffer), Ok(0));
    let mut sink = MemSink::of(Vec::new(alloc), vec![in alloc; 2]?);
    assert_eq!(rt; sink.put(b"a"), Ok(()));
    assert_eq!(rt; sink.put(b"b"), Err(Failed));
    assert_eq!(rt; sink.put(b"c"), Ok(()));
    assert_eq!(rt; sink.bytes(), b"ac".as_slice());
    Ok(())
}
