use crate::sample::name_of;
use nb_host::{Host, HostFault, Name};
use nb_mem::MemHost;
use std::test::Fail;

/// The length of a file, in bytes, that was placed, made again, filled and synced.
fn file_comes(host: &mut MemHost, name: &Name) -> Result<Option<u64>, HostFault> {
    host.make(name)?;
    host.append(name, b"tail")?;
    host.sync(name)?;
    host.size(name)
}

/// What its length is without it.
fn file_goes(host: &mut MemHost, name: &Name) -> Result<Option<u64>, HostFault> {
    host.remove(name)?;
    host.size(name)
}

/// Whether the file has these bytes.
fn has(host: &MemHost, name: &Name, bytes: &[u8]) -> bool {
    host.file(name) == Some(bytes)
}

#[test]
fn files_come_and_go(rt: HostRuntime) -> Result<(), Fail> {
    let name = name_of("a.db")?;
    let mut host = MemHost::new(rt.alloc())?;
    host.put_file(&name, b"abc")?;
    let come = (file_comes(&mut host, &name), has(&host, &name, b"tail"));
    let gone = (file_goes(&mut host, &name), host.memory_count());
    assert_eq!(rt; (come, gone), ((Ok(Some(4)), true), (Ok(None), 0)));
    Ok(())
}

/// Whether a page is read whole, and its first byte and its last one, of which each was 9.
fn page_at(host: &mut MemHost, name: &Name, index: u32) -> (Result<bool, HostFault>, u8, u8) {
    let mut page = [9; 1024];
    let is_whole = host.read_page(name, index, &mut page);
    (is_whole, page[0], page[1023])
}

/// How many bytes are read, and the first of 1,024 and the last one, of which each was 9.
fn bytes_at(host: &mut MemHost, name: &Name, at: u64) -> (Result<usize, HostFault>, u8, u8) {
    let mut bytes = [9; 1024];
    let count = host.read_at(name, at, &mut bytes);
    (count, bytes[0], bytes[1023])
}

#[test]
fn pages_and_bytes_are_read_as_written(rt: HostRuntime) -> Result<(), Fail> {
    let name = name_of("a.db")?;
    let mut host = MemHost::new(rt.alloc())?;
    host.write_page(&name, 1, &[7; 1024])?;
    let pages = [page_at(&mut host, &name, 1), page_at(&mut host, &name, 2)];
    let bytes = [
        bytes_at(&mut host, &name, 1948),
        bytes_at(&mut host, &name, u64::MAX),
    ];
    assert_eq!(rt;
        (pages, bytes, host.read_count()),
        (
            [(Ok(true), 7, 7), (Ok(false), 9, 9)],
            [(Ok(100), 7, 9), (Ok(0), 9, 9)],
            4
        )
    );
    Ok(())
}

/// The second GUID and the second time, around a reply.
fn second_answers(host: &mut MemHost) -> Result<([u8; 16], u64), HostFault> {
    host.guid()?;
    host.seconds()?;
    host.say(b"x")?;
    Ok((host.guid()?, host.seconds()?))
}

#[test]
fn output_guids_and_times(rt: HostRuntime) -> Result<(), Fail> {
    let mut host = MemHost::new(rt.alloc())?;
    let answers = second_answers(&mut host)?;
    assert_eq!(rt;
        (answers, host.output(), host.calls()),
        (
            (*b"\0\0\0\0\0\0\0\0\0\0\0\0\0\0\0\x02", 1_000_000_001),
            b"x".as_slice(),
            5
        )
    );
    Ok(())
}

/// What three calls answer, and how many of them have failed.
fn three_calls(host: &mut MemHost) -> ([Result<(), HostFault>; 3], u64) {
    let answers = [host.say(b"x"), host.say(b"x"), host.say(b"x")];
    (answers, host.fault_count())
}

/// The next GUID after a crash, where those that were given before count on, and how many there are then.
fn guid_behind_a_stop(host: &mut MemHost) -> Result<([u8; 16], u64), Fail> {
    host.guid()?;
    host.guid()?;
    let mut next = host.left(0)?.behind_guids(host.guid_count())?;
    Ok((next.guid()?, next.guid_count()))
}

#[test]
fn guids_go_on_behind_a_stop(rt: HostRuntime) -> Result<(), Fail> {
    let mut host = MemHost::new(rt.alloc())?;
    let guid = guid_behind_a_stop(&mut host)?;
    assert_eq!(rt; guid, (*b"\0\0\0\0\0\0\0\0\0\0\0\0\0\0\0\x03", 3));
    Ok(())
}

#[test]
fn chosen_calls_fail(rt: HostRuntime) -> Result<(), Fail> {
    let failing = three_calls(&mut MemHost::failing(rt.alloc(), &[2])?);
    let fused = three_calls(&mut MemHost::fused(rt.alloc(), 2)?);
    assert_eq!(rt;
        (failing, fused),
        (
            ([Ok(()), Err(HostFault), Ok(())], 1),
            ([Ok(()), Err(HostFault), Err(HostFault)], 2)
        )
    );
    Ok(())
}

/// The first and the last byte of a file.
fn ends_of(host: &MemHost, name: &Name) -> Option<(u8, u8)> {
    let bytes = host.file(name)?;
    Some((*bytes.first()?, *bytes.last()?))
}

/// Writes a page of a file that is kept, and makes another file.
fn write_and_make(host: &mut MemHost, written: &Name, made: &Name) -> Result<(), HostFault> {
    host.write_page(written, 0, &[2; 1024])?;
    host.make(made)?;
    host.append(made, b"abcd")
}

/// What is left of the two files.
fn two_left(host: &MemHost, written: &Name, made: &Name) -> [Option<(u8, u8)>; 2] {
    [ends_of(host, written), ends_of(host, made)]
}

#[test]
fn picks_leave_different_files(rt: HostRuntime) -> Result<(), Fail> {
    let (written, made) = (name_of("written")?, name_of("made")?);
    let mut host = MemHost::new(rt.alloc())?;
    host.put_file(&written, &[1; 1024])?;
    write_and_make(&mut host, &written, &made)?;
    let lost = two_left(&host.left(0)?, &written, &made);
    let torn = two_left(&host.left(22)?, &written, &made);
    assert_eq!(rt;
        (lost, torn),
        ([Some((1, 1)), None], [Some((1, 1)), Some((b'a', 0))])
    );
    Ok(())
}
