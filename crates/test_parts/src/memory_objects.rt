use bar_base::{
    Failed, FileSink, FileSource, Files, Sink, TakeFault, WriteBuffer, read_all, write_all,
};
use bar_memory::{MemoryFiles, MemorySink, MemorySource, SureSource};
use std::test::Fail;

#[test]
fn a_write_fails_where_it_is_to_and_where_room_is_short(rt: HostRuntime) -> Result<(), Fail> {
    let mut sink = MemorySink::new(rt.alloc(), 5, &[2])?;
    assert_eq!(rt; sink.write(b"abc"), Ok(3));
    assert_eq!(rt; sink.write(b"d"), Err(Failed));
    assert_eq!(rt; sink.write(b"def"), Err(Failed));
    assert_eq!(rt; sink.write(b"de"), Ok(2));
    assert_eq!(rt; sink.bytes(), b"abcde".as_slice());
    Ok(())
}

#[test]
fn a_file_is_written_and_read(rt: HostRuntime) -> Result<(), Fail> {
    let alloc = rt.alloc();
    let mut files = MemoryFiles::new(alloc, &[])?;
    files.reserve("label", 5)?;
    assert_eq!(rt; files.create("other"), Err(Failed));
    assert_eq!(rt; files.open_read("label"), Err(Failed));
    assert_eq!(rt; files.file("label"), None);
    assert_eq!(rt; files.create("label"), Ok(()));
    assert_eq!(rt; write_all(&mut FileSink::new(&mut files), b"12345"), Ok(()));
    assert_eq!(rt;
        write_all(&mut FileSink::new(&mut files), b"6"),
        Err(Failed)
    );
    assert_eq!(rt; files.open_read("label"), Ok(()));
    let bytes = read_all(alloc, &mut FileSource::new(&mut files), 5, 5)?;
    assert_eq!(rt; bytes.as_slice(), b"12345".as_slice());
    assert_eq!(rt; files.file("label"), Some(b"12345".as_slice()));
    Ok(())
}

#[test]
fn calls_are_counted_over_all_kinds(rt: HostRuntime) -> Result<(), Fail> {
    let mut files = MemoryFiles::new(rt.alloc(), &[2, 5])?;
    files.reserve("label", 1)?;
    assert_eq!(rt; files.create("label"), Ok(()));
    assert_eq!(rt; files.append(b"1"), Err(Failed));
    assert_eq!(rt; files.append(b"1"), Ok(1));
    assert_eq!(rt; files.open_read("label"), Ok(()));
    let mut into = [0; 4];
    assert_eq!(rt; files.read(&mut into), Err(Failed));
    assert_eq!(rt; files.read(&mut into), Ok(1));
    Ok(())
}

#[test]
fn an_input_is_read_to_its_end_within_its_limit(rt: HostRuntime) -> Result<(), Fail> {
    let alloc = rt.alloc();
    let mut label = SureSource::new(alloc, b"label")?;
    let bytes = read_all(alloc, &mut label, 5, 2)?;
    assert_eq!(rt; bytes.as_slice(), b"label".as_slice());
    let mut long = SureSource::new(alloc, b"BM1234")?;
    assert_eq!(rt;
        read_all(alloc, &mut long, 5, 4).err(),
        Some(TakeFault::TooLong(4))
    );
    let mut broken = MemorySource::new(alloc, b"label", &[2])?;
    assert_eq!(rt;
        read_all(alloc, &mut broken, 5, 5).err(),
        Some(TakeFault::Failed)
    );
    Ok(())
}

#[test]
fn a_failed_flush_has_written_a_front(rt: HostRuntime) -> Result<(), Fail> {
    let mut sink = MemorySink::new(rt.alloc(), 4200, &[2])?;
    let mut buffer = WriteBuffer::new();
    assert_eq!(rt; buffer.put(&mut sink, &[7; 4000]), Ok(()));
    assert_eq!(rt; sink.bytes().len(), 0);
    assert_eq!(rt; buffer.put(&mut sink, &[8; 100]), Ok(()));
    assert_eq!(rt; sink.bytes().len(), 4000);
    assert_eq!(rt; buffer.flush(&mut sink), Err(Failed));
    assert_eq!(rt; sink.bytes().len(), 4000);
    Ok(())
}
