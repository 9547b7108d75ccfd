// How many calls a page write makes in each backup state, where it is forced and where it isn't. Above, a write that isn't forced waits in two of
// these states.
use crate::sample::base_name;
use nb_base::TwoFiles;
use nb_fields::are_zeros;
use nb_fields::layouts::header;
use nb_host::Fault;
use nb_mem::MemHost;
use std::alloc::Global;
use std::test::Fail;

/// Writes a page of which each byte is the same.
fn write(host: &mut MemHost, files: &mut TwoFiles, number: u32, byte: u8) -> Result<(), Fault> {
    write_page(host, files, number, &[byte; 1024])
}

/// Writes a page of the database, or adds it at the end.
fn write_page(
    host: &mut MemHost,
    files: &mut TwoFiles,
    number: u32,
    page: &[u8; 1024],
) -> Result<(), Fault> {
    if files.page_size() != 1024 || number >= 1_048_576 || are_zeros(page) {
        return Err(Fault::Device);
    }
    if files.drafted() != 0 || number > files.count() {
        return Err(Fault::Device);
    }
    files.write(host, number, page)?;
    Ok(())
}

/// Says in page 0 that writes aren't forced.
fn let_wait(host: &mut MemHost, files: &mut TwoFiles) -> Result<(), Fault> {
    if files.page_size() != 1024 {
        return Err(Fault::Device);
    }
    let mut page = [0; 1024];
    files.read(host, 0, &mut page)?;
    header::Forced::put(&mut page, 0);
    write_page(host, files, 0, &page)
}

/// The last byte of a page of the database.
fn byte_of(host: &mut MemHost, files: &mut TwoFiles, number: u32) -> Result<u8, Fault> {
    if files.page_size() != 1024 {
        return Err(Fault::Device);
    }
    let mut page = [0; 1024];
    files.read(host, number, &mut page)?;
    Ok(page[1023])
}

/// Begins a backup, and writes page 5 over it.
fn stall(host: &mut MemHost, files: &mut TwoFiles) -> Result<(), Fault> {
    if files.state() == 0 {
        files.begin(host, &[7; 16])?;
    }
    write(host, files, 5, 3)
}

/// Brings a database into that state.
fn bring(host: &mut MemHost, files: &mut TwoFiles, state: u16) -> Result<(), Fault> {
    if state > 0 {
        stall(host, files)?;
    }
    if state > 1 && files.state() == 1 && files.drafted() == 0 {
        files.end(host)?;
    }
    Ok(())
}

/// Writes pages 5 and 6, brings the database into that state, and keeps it for good.
fn prepare(host: &mut MemHost, files: &mut TwoFiles, state: u16) -> Result<(), Fault> {
    write(host, files, 5, 1)?;
    write(host, files, 6, 2)?;
    bring(host, files, state)?;
    files.sync(host)?;
    Ok(())
}

/// How many calls a write makes, and 0 where it isn't read back.
fn calls_to_write(host: &mut MemHost, files: &mut TwoFiles, number: u32) -> Result<u64, Fault> {
    let before = host.calls();
    write(host, files, number, 9)?;
    let calls = host.calls().saturating_sub(before);
    if byte_of(host, files, number)? != 9 {
        return Ok(0);
    }
    Ok(calls)
}

/// The same of a new database of eight pages in that state.
fn calls_of(alloc: Global, state: u16, number: u32, forced: bool) -> Result<u64, Fault> {
    let mut host = MemHost::new(alloc)?;
    let mut files = TwoFiles::create(alloc, &mut host, &base_name()?, 1024, 3)?;
    if !forced {
        let_wait(&mut host, &mut files)?;
    }
    prepare(&mut host, &mut files, state)?;
    calls_to_write(&mut host, &mut files, number)
}

/// A state, a page, and how many calls a write makes that is forced, and one that isn't. Page 5 is in the difference file from the stalled
/// state on, and page 8 is new.
const CALLS: [(u16, u32, u64, u64); 8] = [
    (0, 5, 2, 1),
    (0, 8, 2, 2),
    (1, 5, 2, 1),
    (1, 6, 4, 3),
    (1, 8, 4, 4),
    (2, 5, 3, 2),
    (2, 6, 2, 1),
    (2, 8, 2, 2),
];

/// The first of these that is another number.
fn wrong_count(alloc: Global) -> Result<Option<usize>, Fault> {
    for (place, (state, number, forced, waiting)) in CALLS.iter().enumerate() {
        let is_forced = calls_of(alloc, *state, *number, true)? == *forced;
        if !is_forced || calls_of(alloc, *state, *number, false)? != *waiting {
            return Ok(Some(place));
        }
    }
    Ok(None)
}

#[test]
fn a_write_makes_the_calls_of_its_state(rt: HostRuntime) -> Result<(), Fail> {
    assert_eq!(rt; wrong_count(rt.alloc())?, None);
    Ok(())
}
