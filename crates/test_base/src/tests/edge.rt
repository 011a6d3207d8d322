ghost use Rattle.std.specs.Prelude.{◌<◌};

use base_host::{
    FileHost, Host, MemHost, MemSink, OutSink, PutBuffer, ReadAllFault, ReadBuffer, SureHost,
    SureSink, put_all, read_all, write_all,
};
use std::alloc::{AllocError, Global};
use std::test::Fail;

const TEXT: &[u8] = b"Model {\n}\n and forty bytes of a further text";

// Files of which the only one is `a`.
fn one_file(alloc: Global, bytes: Vec<u8>) -> Result<Vec<(String, Vec<u8>)>, AllocError> {
    let name = String::from_str(alloc, "a")?;
    let mut files = Vec::new(alloc);
    files.push((name, bytes))?;
    Ok(files)
}

// A host with one file `a`.
fn host_of(alloc: Global, fails: &[u64], piece: usize) -> Result<MemHost, AllocError>
    requires { 0 < piece }
{
    let files = one_file(alloc, TEXT.to_vec(alloc)?)?;
    Ok(MemHost::new(alloc, files, fails.to_vec(alloc)?, piece))
}

// Whether the file of this name holds the text, which is read whole if it has at most so many bytes.
fn holds_text<H: Host>(
    alloc: Global,
    host: &mut H,
    name: &str,
    max: usize,
) -> Result<bool, ReadAllFault> {
    let bytes = read_all(alloc, host, name, max)?;
    Ok(bytes.as_slice() == TEXT)
}

// How many bytes it has.
const LENGTH: usize = 44;

// Whether a file holds the text, of a host of which this call fails, with how many calls ran out of memory.
fn read_of(
    alloc: Global,
    fail: u64,
    piece: usize,
    max: usize,
    name: &str,
) -> Result<(Result<bool, ReadAllFault>, u64), AllocError>
    requires { 0 < piece }
{
    let mut host = host_of(alloc, &[fail], piece)?;
    let read = holds_text(alloc, &mut host, name, max);
    Ok((read, host.refused()))
}

// Whether a file of 5000 bytes is read, of which this call fails.
fn is_long_file_read(alloc: Global, fail: u64) -> Result<bool, AllocError> {
    let files = one_file(alloc, vec![in alloc; 7; 5000]?)?;
    let mut host = MemHost::new(alloc, files, [fail].to_vec(alloc)?, 10_000);
    Ok(read_all(alloc, &mut host, "a", 5000).is_ok())
}

#[test]
fn a_file_is_read_whole_or_not(rt: HostRuntime) -> Result<(), Fail> {
    for &(fail, piece, max, name, want) in &[
        (9, 4096, 4096, "a", Ok(true)),
        (9, 16, LENGTH, "a", Ok(true)),
        (9, 16, 43, "a", Err(ReadAllFault::TooLong)),
        (9, 16, LENGTH, "b", Err(ReadAllFault::Read)),
        (0, 16, LENGTH, "a", Err(ReadAllFault::Read)),
        (2, 16, LENGTH, "a", Err(ReadAllFault::Read)),
        // Of 44 bytes three reads take 16, 16 and 12, and the fourth finds the end.
        (4, 16, LENGTH, "a", Err(ReadAllFault::Read)),
        (5, 16, LENGTH, "a", Ok(true)),
    ] {
        assert_eq!(rt;
            read_of(rt.alloc(), fail, piece, max, name)?,
            (want, 0),
            "{fail} {piece} {max} {name}"
        );
    }
    // A file of 5000 bytes takes a read of 4096 bytes, one of 904, and one that finds the end.
    for &(fail, whole) in &[(3, false), (4, true)] {
        assert_eq!(rt; is_long_file_read(rt.alloc(), fail)?, whole, "{fail}");
    }
    Ok(())
}

// Whether a text is written to a file where this call fails, whole where it is none of them, so that so many files are written, whose
// names and bytes are these, and no call runs out of memory.
fn is_written(alloc: Global, fail: u64, files: usize, want: &str) -> Result<bool, AllocError> {
    let mut host = host_of(alloc, &[fail], 16)?;
    let is_whole = write_all(&mut host, "c", TEXT).is_ok();
    let mut bytes = Vec::new(alloc);
    for file in host.written() {
        bytes.extend_from_slice(file.0.as_bytes())?;
        bytes.extend_from_slice(&file.1)?;
    }
    Ok(
        is_whole == (fail == 9)
            && host.written().len() == files
            && host.refused() == 0
            && bytes.as_slice() == want.as_bytes(),
    )
}

// Whether a text is printed so where this call fails, whole where it is none of them, and no call runs out of memory.
fn is_put(alloc: Global, fail: u64, want: &str) -> Result<bool, AllocError> {
    let mut sink = MemSink::new(alloc, [fail].to_vec(alloc)?, 16);
    let is_whole = put_all(&mut sink, TEXT).is_ok();
    Ok(is_whole == (fail == 9) && sink.refused() == 0 && sink.bytes() == want.as_bytes())
}

#[test]
fn texts_are_written_whole_or_their_fronts(rt: HostRuntime) -> Result<(), Fail> {
    // of the file `c`
    for &(fail, files, want) in &[
        (9, 1, "cModel {\n}\n and forty bytes of a further text"),
        (3, 1, "cModel {\n}\n and forty bytes of a "),
        (1, 1, "c"),
        (0, 0, ""),
    ] {
        assert!(rt; is_written(rt.alloc(), fail, files, want)?, "{fail}");
    }
    Ok(())
}

#[test]
fn texts_are_put_whole_or_their_fronts(rt: HostRuntime) -> Result<(), Fail> {
    for &(fail, want) in &[
        (9, "Model {\n}\n and forty bytes of a further text"),
        (2, "Model {\n}\n and forty bytes of a "),
        (0, ""),
    ] {
        assert!(rt; is_put(rt.alloc(), fail, want)?, "{fail}");
    }
    Ok(())
}

// What a sure host reads of a file that it has and of one that it hasn't, whether it writes, and how many bytes it takes.
fn surely_read(alloc: Global) -> Result<(Result<bool, ReadAllFault>, bool, bool, u64), AllocError> {
    let mut host = SureHost::new(one_file(alloc, TEXT.to_vec(alloc)?)?);
    let there = holds_text(alloc, &mut host, "a", 4096);
    let is_missing = holds_text(alloc, &mut host, "b", 4096).is_err();
    let is_written = write_all(&mut host, "c", TEXT).is_ok();
    Ok((there, is_missing, is_written, host.taken()))
}

#[test]
fn sure_ends_read_what_they_have_and_count_what_they_take(rt: HostRuntime) -> Result<(), Fail> {
    let mut sink = SureSink::new();
    let is_put = put_all(&mut sink, TEXT).is_ok();
    let length = TEXT.len() as u64;
    assert_eq!(rt;
        (surely_read(rt.alloc())?, (is_put, sink.taken())),
        ((Ok(true), true, true, length), (true, length))
    );
    Ok(())
}

// How many bytes the sink has once these were printed to it, of which some may wait.
fn bytes_put(buffer: &mut PutBuffer, sink: &mut MemSink, bytes: &[u8]) -> Option<usize> {
    buffer.put(sink, bytes).ok()?;
    Some(sink.bytes().len())
}

// How many bytes a sink has once the text was printed; whether the buffer is flushed, and it then has the text; and how many it
// has after one further byte, and after many.
fn bytes_behind_puts(
    alloc: Global,
) -> Result<(Option<usize>, (bool, bool), [Option<usize>; 2]), AllocError> {
    let many = vec![in alloc; 7u8; 65_536]?;
    let mut sink = MemSink::new(alloc, Vec::new(alloc), 100_000);
    let mut buffer = PutBuffer::new(alloc)?;
    let waiting = bytes_put(&mut buffer, &mut sink, TEXT);
    let is_flushed = buffer.flush(&mut sink).is_ok();
    let is_text = sink.bytes() == TEXT;
    let one = bytes_put(&mut buffer, &mut sink, b".");
    let more = bytes_put(&mut buffer, &mut sink, &many);
    Ok((waiting, (is_flushed, is_text), [one, more]))
}

// Whether a file is opened, how many bytes a buffer then takes, and whether it has these.
fn filled(alloc: Global) -> Result<(bool, Option<usize>, bool), AllocError> {
    let mut host = host_of(alloc, &[9], 16)?;
    let mut read = ReadBuffer::new(alloc)?;
    let is_open = host.open_read("a").is_ok();
    let count = read.fill(&mut host).ok();
    Ok((is_open, count, read.bytes() == &TEXT[..16]))
}

#[test]
fn bytes_wait_in_buffers(rt: HostRuntime) -> Result<(), Fail> {
    let length = TEXT.len();
    // Once there are too many the byte before them is printed, and they wait.
    assert_eq!(rt;
        bytes_behind_puts(rt.alloc())?,
        (Some(0), (true, true), [Some(length), Some(length + 1)])
    );
    // They are read after those that are there.
    assert_eq!(rt; filled(rt.alloc())?, (true, Some(16), true));
    Ok(())
}

// What reads of these files give: of one that is kept, of one that is missing, and of a folder.
fn reads<H: Host>(alloc: Global, host: &mut H) -> [Result<bool, ReadAllFault>; 3] {
    let kept = holds_text(alloc, host, "kept", 4096);
    let missing = holds_text(alloc, host, "missing", 4096);
    let folder = holds_text(alloc, host, ".", 4096);
    [kept, missing, folder]
}

// The length of the kept file once a byte is written after it, and a file in a folder that isn't there could not be.
fn longer<H: Host>(alloc: Global, host: &mut H) -> Option<usize> {
    if write_all(host, "no/such/folder", TEXT).is_ok() {
        return None;
    }
    // The file that was opened last is still the one that is written.
    host.write(b".").ok()?;
    let bytes = read_all(alloc, host, "kept", 4096).ok()?;
    Some(bytes.len())
}

#[test]
fn the_system_keeps_a_file_and_takes_a_text(rt: HostRuntime) {
    let is_put = put_all(&mut OutSink::new(&rt), TEXT).is_ok();
    let mut host = FileHost::new(&rt);
    let is_written = write_all(&mut host, "kept", TEXT).is_ok();
    let reads = reads(rt.alloc(), &mut host);
    let longer = longer(rt.alloc(), &mut host);
    // A folder can be opened, and each read of it fails.
    let fault = Err(ReadAllFault::Read);
    assert_eq!(rt;
        (is_put, is_written, reads, longer),
        (true, true, [Ok(true), fault, fault], Some(TEXT.len() + 1))
    );
}
