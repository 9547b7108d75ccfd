// Pages in memory: which reads ask the host, and what is in memory in each backup state and after a read that failed.
ghost use Rattle.std.specs.Prelude.{◌<◌, ◌≤◌};

use crate::sample::base_name;
use nb_fields::are_zeros;
use nb_host::Fault;
use nb_mem::MemHost;
use nb_owner::Pair;
use std::alloc::Global;
use std::test::Fail;

/// What these steps answer on that host with a new database of 13 pages of 1,024 bytes, opened with room for so many pages in memory. They
/// borrow it, so that it is dropped in one place.
fn on_new_base<T, F: FnOnce(Global, &mut MemHost, &mut Pair) -> Result<T, Fault>>(
    alloc: Global,
    mut host: MemHost,
    cache_pages: u32,
    steps: F,
) -> Result<T, Fault>
    requires some { 0 < cache_pages }
    requires few { cache_pages ≤ 4096 }
    requires steps { F.IsAlwaysCallable steps }
{
    Pair::create(alloc, &mut host, &base_name()?, 1024, 8, 1)?;
    let (mut pair, _) = Pair::attach(alloc, &mut host, &base_name()?, cache_pages)?;
    steps(alloc, &mut host, &mut pair)
}

/// The last byte of a page of the database.
fn byte_of(host: &mut MemHost, pair: &mut Pair, number: u32) -> Result<u8, Fault> {
    if pair.page_size() != 1024 {
        return Err(Fault::Device);
    }
    let mut page = [0; 1024];
    pair.read(host, number, &mut page)?;
    Ok(page[1023])
}

/// Writes that byte.
fn put_byte(host: &mut MemHost, pair: &mut Pair, number: u32, byte: u8) -> Result<(), Fault> {
    let mut page = [0; 1024];
    if pair.page_size() != 1024 || number >= 1_048_576 || number > pair.count() {
        return Err(Fault::Device);
    }
    pair.read(host, number, &mut page)?;
    page[1023] = byte;
    if are_zeros(&page) {
        return Err(Fault::Device);
    }
    pair.write(host, number, &page)?;
    Ok(())
}

/// How often the host is asked for page `number`, and how many pages are in memory then.
fn asked(host: &mut MemHost, pair: &mut Pair, number: u32) -> Result<(u64, u32), Fault> {
    let before = host.read_count();
    byte_of(host, pair, number)?;
    Ok((host.read_count().saturating_sub(before), pair.held()))
}

/// Pages that are read one after another with room for two, how often the host is asked for each, and how many are in memory then.
const READS: [(u32, u64, u32); 9] = [
    (6, 1, 1),
    (6, 0, 1),
    (7, 1, 2),
    (6, 0, 2),
    (8, 1, 2),
    (6, 0, 2),
    (7, 1, 2),
    (0, 1, 2),
    (0, 0, 2),
];

/// The first of these reads that is another.
fn wrong_read(_: Global, host: &mut MemHost, pair: &mut Pair) -> Result<Option<usize>, Fault> {
    for (place, (number, reads, held)) in READS.iter().enumerate() {
        if asked(host, pair, *number)? != (*reads, *held) {
            return Ok(Some(place));
        }
    }
    Ok(None)
}

#[test]
fn the_last_pages_are_in_memory(rt: HostRuntime) -> Result<(), Fail> {
    let host = MemHost::new(rt.alloc())?;
    assert_eq!(rt; on_new_base(rt.alloc(), host, 2, wrong_read)?, None);
    Ok(())
}

/// How many calls the host has had.
fn calls_of(_: Global, host: &mut MemHost, _pair: &mut Pair) -> Result<u64, Fault> {
    Ok(host.calls())
}

/// Whether a read that failed left no page in memory, and how it is asked for again.
fn asked_again(_: Global, host: &mut MemHost, pair: &mut Pair) -> Result<(bool, u64, u32), Fault> {
    let failed = byte_of(host, pair, 6).is_err();
    let is_empty = failed && pair.held() == 0;
    let (reads, held) = asked(host, pair, 6)?;
    Ok((is_empty, reads, held))
}

#[test]
fn a_failed_read_leaves_no_page_in_memory(rt: HostRuntime) -> Result<(), Fail> {
    let alloc = rt.alloc();
    let opened = on_new_base(alloc, MemHost::new(alloc)?, 2, calls_of)?;
    let host = MemHost::failing(alloc, &[opened.saturating_add(1)])?;
    assert_eq!(rt; on_new_base(alloc, host, 2, asked_again)?, (true, 1, 1));
    Ok(())
}

/// Merges every entry, and ends the merge.
fn merge_all(host: &mut MemHost, pair: &mut Pair) -> Result<(), Fault> {
    for k in 0..pair.delta_count() {
        if pair.state() == 2 && k < pair.delta_count() {
            pair.merge_entry(host, k)?;
        }
    }
    if pair.state() == 2 {
        pair.finish(host)?;
    }
    Ok(())
}

/// Brings the database into the next backup state: a backup begins, it ends, and the merge does.
fn next_state(host: &mut MemHost, pair: &mut Pair) -> Result<(), Fault> {
    if pair.state() == 0 {
        pair.begin(host, &[7; 16])?;
        Ok(())
    } else if pair.state() == 1 {
        pair.end(host)?;
        Ok(())
    } else {
        merge_all(host, pair)
    }
}

/// What another reads of page 0.
fn byte_in_files(alloc: Global, host: &mut MemHost) -> Result<u8, Fault> {
    let (mut other, _) = Pair::attach(alloc, host, &base_name()?, 1)?;
    byte_of(host, &mut other, 0)
}

/// The backup state that page 0 says from memory, and a byte that is written then: as it is read back from memory, by how many reads, and as
/// another reads it.
fn page_0(
    alloc: Global,
    host: &mut MemHost,
    pair: &mut Pair,
    byte: u8,
) -> Result<(u8, u8, u64, u8), Fault> {
    if pair.page_size() != 1024 {
        return Err(Fault::Device);
    }
    let mut page = [0; 1024];
    pair.read(host, 0, &mut page)?;
    put_byte(host, pair, 0, byte)?;
    let before = host.read_count();
    let seen = byte_of(host, pair, 0)?;
    let reads = host.read_count().saturating_sub(before);
    Ok((page[22], seen, reads, byte_in_files(alloc, host)?))
}

/// The same in each state. Page 6 is written too, so that there is something to merge.
fn pages_0(
    alloc: Global,
    host: &mut MemHost,
    pair: &mut Pair,
) -> Result<[(u8, u8, u64, u8); 4], Fault> {
    let mut said = [(9, 9, 9, 9); 4];
    for place in 0..4 {
        said[place] = page_0(alloc, host, pair, place as u8 + 1)?;
        put_byte(host, pair, 6, 5)?;
        next_state(host, pair)?;
    }
    Ok(said)
}

#[test]
fn page_0_follows_the_state(rt: HostRuntime) -> Result<(), Fail> {
    let host = MemHost::new(rt.alloc())?;
    assert_eq!(rt;
        on_new_base(rt.alloc(), host, 4, pages_0)?,
        [(0, 1, 0, 1), (1, 2, 0, 2), (2, 3, 0, 3), (0, 4, 0, 4)]
    );
    Ok(())
}

/// A page of the frozen main file and the same page as it is seen, in the stalled state, once it was written; and how many pages are in
/// memory.
fn both_seen(_: Global, host: &mut MemHost, pair: &mut Pair) -> Result<(u8, u8, u32), Fault> {
    next_state(host, pair)?;
    put_byte(host, pair, 6, 5)?;
    if pair.page_size() != 1024 {
        return Err(Fault::Device);
    }
    let mut page = [9; 1024];
    pair.read_main(host, 6, &mut page)?;
    let seen = byte_of(host, pair, 6)?;
    Ok((page[1023], seen, pair.held()))
}

#[test]
fn the_frozen_file_is_read_past_the_pages_in_memory(rt: HostRuntime) -> Result<(), Fail> {
    let host = MemHost::new(rt.alloc())?;
    assert_eq!(rt; on_new_base(rt.alloc(), host, 2, both_seen)?, (0, 5, 1));
    Ok(())
}
