use bar_base::{
    Bits, Element, Elements, Failed, Files, Grid, Sink, Source, StdFiles, StdSink, StdSource,
    WriteBuffer, check_digit, check_digit_of_text, push_bits, row_of_widths, write_all,
};
use std::io::{self, Read};
use std::test::Fail;
use std::{env, fs};

#[derive(Drop)]
struct Broken;

impl Read for Broken {
    fn read(&mut self, _buf: &mut [u8]) -> io::Result<usize> {
        Err(io::Error::from(io::ErrorKind::Other))
    }
}

#[test]
fn lists_keep_their_items(rt: HostRuntime) -> Result<(), Fail> {
    let alloc = rt.alloc();
    let mut elements = Elements::new(alloc);
    assert_eq!(rt; elements.is_empty(), true);
    elements.push(Element::Eci(999_999))?;
    elements.push(Element::Byte(65))?;
    assert_eq!(rt; elements.len(), 2);
    assert_eq!(rt; elements.get(0), Some(Element::Eci(999_999)));
    assert_eq!(rt; elements.get(2), None);
    let mut bits = Bits::new(alloc);
    push_bits(&mut bits, 4, 0x15)?;
    assert_eq!(rt; bits.as_slice(), [false, true, false, true].as_slice());
    Ok(())
}

#[test]
fn grids_are_drawn(rt: HostRuntime) -> Result<(), Fail> {
    let row = row_of_widths(rt.alloc(), &[2, 1, 1])?;
    assert_eq!(rt; row.width(), 4);
    assert_eq!(rt; row.rows(), 1);
    let mut grid = Grid::new(rt.alloc(), 3, 2)?;
    grid.set(2, 1, true);
    assert_eq!(rt; grid.dark(2, 1), true);
    assert_eq!(rt; grid.dark(1, 1), false);
    Ok(())
}

// the examples of the GS1 General Specifications and of a carton label
#[test]
fn check_digits(rt: HostRuntime) -> Result<(), Fail> {
    assert_eq!(rt; check_digit_of_text(b"629104150021"), 3);
    assert_eq!(rt; check_digit_of_text(b"0952123454321"), 3);
    assert_eq!(rt; check_digit(&[1, 5, 4, 0, 0, 1, 4, 1, 2, 8, 8, 7, 6]), 3);
    Ok(())
}

#[test]
fn a_writer_takes_the_bytes_until_it_is_full(rt: HostRuntime) -> Result<(), Fail> {
    let mut room = [0; 3];
    {
        let mut sink = StdSink::new(room.as_mut_slice());
        assert_eq!(rt; write_all(&mut sink, b"ab"), Ok(()));
        assert_eq!(rt; write_all(&mut sink, b"cd"), Err(Failed));
        assert_eq!(rt; sink.write(b""), Ok(0));
    }
    assert_eq!(rt; room.as_slice(), b"abc".as_slice());
    Ok(())
}

#[test]
fn bytes_wait_until_they_are_written(rt: HostRuntime) -> Result<(), Fail> {
    let mut room = [0; 3];
    {
        let mut sink = StdSink::new(room.as_mut_slice());
        let mut buffer = WriteBuffer::new();
        assert_eq!(rt; buffer.put(&mut sink, b"ab"), Ok(()));
        assert_eq!(rt; buffer.put(&mut sink, b"cd"), Ok(()));
        assert_eq!(rt; buffer.flush(&mut sink), Err(Failed));
        assert_eq!(rt; buffer.put(&mut sink, &[0; 4097]), Err(Failed));
    }
    assert_eq!(rt; room.as_slice(), b"abc".as_slice());
    Ok(())
}

#[test]
fn a_reader_gives_its_bytes_and_its_errors(rt: HostRuntime) -> Result<(), Fail> {
    let mut source = StdSource::new(b"abc".as_slice());
    let mut into = [0; 2];
    assert_eq!(rt; source.read(&mut into), Ok(2));
    assert_eq!(rt; into.as_slice(), b"ab".as_slice());
    assert_eq!(rt; source.read(&mut into), Ok(1));
    assert_eq!(rt; source.read(&mut into), Ok(0));
    assert_eq!(rt; StdSource::new(Broken).read(&mut into), Err(Failed));
    Ok(())
}

#[test]
fn a_file_is_made_and_read(rt: HostRuntime) -> Result<(), Fail> {
    let alloc = rt.alloc();
    let path = env::temp_dir(&rt)?.join(alloc, "bar_base_std_files.txt")?;
    let mut files = StdFiles::new(&rt);
    assert_eq!(rt; files.create(path.as_str()), Ok(()));
    assert_eq!(rt; files.append(b"label"), Ok(5));
    assert_eq!(rt; files.open_read(path.as_str()), Ok(()));
    let mut into = [0; 8];
    assert_eq!(rt; files.read(&mut into), Ok(5));
    assert_eq!(rt; &into[..5], b"label".as_slice());
    assert_eq!(rt; files.read(&mut into), Ok(0));
    fs::remove_file(&rt, path.as_str())?;
    assert_eq!(rt; files.open_read(path.as_str()), Err(Failed));
    Ok(())
}
