// The calls on real files. What lies in the files is asked of the system, beside the host.
use crate::sample::name_of;
use nb_file::{Counted, FileHost, Manner, Progress, process_that_locks};
use nb_host::{Host, HostFault, Name};
use std::fs;
use std::rt::Files;
use std::test::Fail;

/// A page whose first byte is this.
fn page_of(first: u8) -> [u8; 1024] {
    let mut page = [0; 1024];
    page[0] = first;
    page
}

/// How many of the pages 0 to 199 were written, each with its number in its first byte.
fn write_pages<H: Host>(host: &mut H, name: &Name) -> u32 {
    let mut done: u32 = 0;
    for index in 0..200u8 {
        if host.write_page(name, u32::from(index), &page_of(index)) == Ok(()) {
            done = done.saturating_add(1);
        }
    }
    done
}

/// How many of the pages 0 to 199 have their number in their first byte.
fn read_pages<H: Host>(host: &mut H, name: &Name) -> u32 {
    let mut done: u32 = 0;
    let mut page = page_of(255);
    for index in 0..200u8 {
        if host.read_page(name, u32::from(index), &mut page) == Ok(true) && page[0] == index {
            done = done.saturating_add(1);
        }
    }
    done
}

/// The length that the system knows, in bytes.
fn len_in_system<R: Files>(rt: &R, path: &str) -> Option<u64> {
    match fs::metadata(rt, path) {
        Ok(found) => Some(found.len()),
        Err(_) => None,
    }
}

/// Whether the file is that long for the system.
fn is_long<R: Files>(rt: &R, name: &Name, len: u64) -> bool {
    len_in_system(rt, name.as_str()) == Some(len)
}

/// Whether pages are read as they were written, while they wait and when they are written, and bytes after them wait by themselves.
fn pages_are_read<R: Files, H: Host>(rt: &R, host: &mut H, name: &Name) -> [bool; 10] {
    [
        host.make(name) == Ok(()),
        write_pages(host, name) == 200,
        is_long(rt, name, 0),
        host.append(name, &[5; 3]) == Ok(()),
        is_long(rt, name, 204_800),
        read_pages(host, name) == 200,
        is_long(rt, name, 204_803),
        host.size(name) == Ok(Some(204_803)),
        host.write_page(name, 7, &page_of(7)) == Ok(()),
        read_pages(host, name) == 200,
    ]
}

/// What is read of pages and bytes at the end, and the last of these bytes.
fn read_at_end<H: Host>(
    host: &mut H,
    name: &Name,
) -> (Result<bool, HostFault>, Result<usize, HostFault>, u8) {
    let mut page = page_of(0);
    let is_page = host.read_page(name, 200, &mut page);
    let count = host.read_at(name, 204_800, &mut page);
    (is_page, count, page[2])
}

/// What is read past the end of all files.
fn read_past_end<H: Host>(host: &mut H, name: &Name) -> Result<usize, HostFault> {
    host.read_at(name, u64::MAX, &mut page_of(0))
}

/// Whether what waits is written before another file is, before a reply and before a sync.
fn writes_keep_their_order<R: Files, H: Host>(
    rt: &R,
    host: &mut H,
    name: &Name,
    other: &Name,
) -> [bool; 13] {
    [
        host.write_page(name, 300, &page_of(1)) == Ok(()),
        is_long(rt, name, 204_803),
        host.append(other, &[1]) == Ok(()),
        is_long(rt, name, 308_224),
        is_long(rt, other, 0),
        host.say(b"real files\n") == Ok(()),
        is_long(rt, other, 1),
        host.append(other, &[2]) == Ok(()),
        host.sync(name) == Ok(()),
        is_long(rt, other, 2),
        host.append(other, &[3]) == Ok(()),
        host.remove(other) == Ok(()),
        len_in_system(rt, other.as_str()).is_none(),
    ]
}

/// Whether a file that is written is held against everyone else, and one that is only read against those who write.
fn file_is_held<H: Host>(host: &mut H, other: &mut H, name: &Name, same: &Name) -> [bool; 14] {
    [
        host.write_page(name, 0, &page_of(0)) == Ok(()),
        host.read_page(same, 0, &mut page_of(0)) == Err(HostFault),
        other.size(name) == Err(HostFault),
        other.make(name) == Err(HostFault),
        other.remove(name) == Err(HostFault),
        host.size(name) == Ok(Some(1024)),
        host.remove(name) == Ok(()),
        host.append(name, &[1]) == Ok(()),
        host.remove(name) == Ok(()),
        host.remove(name) == Ok(()),
        host.sync(name) == Ok(()),
        other.append(name, &[1, 2]) == Ok(()),
        other.sync(name) == Ok(()),
        host.size(name) == Err(HostFault),
    ]
}

/// Whether two may read and sync a file, and neither may write it then.
fn readers_share<H: Host>(host: &mut H, other: &mut H, name: &Name) -> [bool; 5] {
    [
        host.size(name) == Ok(Some(2)),
        other.size(name) == Ok(Some(2)),
        host.sync(name) == Ok(()),
        other.sync(name) == Ok(()),
        other.append(name, &[3]) == Err(HostFault),
    ]
}

/// Whether the file that another has put under a name that led to none is left as it is, though nobody has it any more.
fn is_left_to_its_maker<R: Files, H: Host>(rt: &R, host: &mut H, name: &Name) -> [bool; 5] {
    [
        host.size(name) == Ok(Some(2)),
        host.make(name) == Err(HostFault),
        host.append(name, &[3]) == Err(HostFault),
        host.remove(name) == Err(HostFault),
        is_long(rt, name, 2),
    ]
}

/// Whether a file that something changes after it was read is left as that leaves it.
fn is_left_as_changed<R: Files, H: Host>(rt: &R, host: &mut H, name: &Name) -> [bool; 4] {
    [
        host.size(name) == Ok(Some(2)),
        fs::write(rt, name.as_str(), b"xyz").is_ok(),
        host.append(name, &[3]) == Err(HostFault),
        is_long(rt, name, 3),
    ]
}

/// Whether a file that is held alone is so from its first use on, and a difference file is made beside it and beside no other.
fn holds_alone<H: Host>(
    holder: &mut H,
    other: &mut H,
    name: &Name,
    delta: &Name,
    stray: &Name,
) -> [bool; 6] {
    [
        holder.size(name) == Ok(Some(2)),
        other.size(name) == Err(HostFault),
        holder.make(delta) == Ok(()),
        holder.remove(delta) == Ok(()),
        holder.make(stray) == Err(HostFault),
        other.size(stray) == Ok(None),
    ]
}

/// Whether a folder is no file, and a name below a file is none either.
fn folder_is_no_file<H: Host>(host: &mut H, folder: &Name, below: &Name) -> [bool; 4] {
    [
        host.size(folder) == Err(HostFault),
        host.read_page(folder, 0, &mut page_of(0)) == Err(HostFault),
        host.remove(folder) == Err(HostFault),
        host.size(below) == Ok(None),
    ]
}

/// Whether a GUID is one of version 4, the next another, and the time this century's.
fn system_answers<H: Host>(host: &mut H) -> Result<[bool; 3], HostFault> {
    let guid = host.guid()?;
    Ok([
        (guid[6] / 16, guid[8] / 64) == (4, 2),
        host.guid()? != guid,
        host.seconds()? > 1_700_000_000,
    ])
}

#[test]
fn files_are_written_and_read(rt: HostRuntime) -> Result<(), Fail> {
    let name = name_of("nb_file_test.db")?;
    let other = name_of("nb_file_test.level")?;
    let mut host = FileHost::new(rt, rt.alloc());
    host.show_progress(Progress {
        job: "testing",
        name: name.copied(),
        counted: Counted::All,
        whole: Vec::new(rt.alloc()),
        manner: Manner::Lines,
    });
    let pages = pages_are_read(&rt, &mut host, &name);
    let end = (
        read_at_end(&mut host, &name),
        read_past_end(&mut host, &name),
    );
    let order = writes_keep_their_order(&rt, &mut host, &name, &other);
    let system = system_answers(&mut host);
    let is_gone = (host.flush(), host.remove(&name));
    host.end_progress();
    assert_eq!(rt; host.last_said(), b"real files\n".as_slice());
    assert_eq!(rt;
        (pages, end, order, system, is_gone, host.fault_count()),
        (
            [true; 10],
            ((Ok(false), Ok(3), 5), Ok(0)),
            [true; 13],
            Ok([true; 3]),
            (Ok(()), Ok(())),
            0
        )
    );
    Ok(())
}

#[test]
fn files_are_locked(rt: HostRuntime) -> Result<(), Fail> {
    let name = name_of("nb_file_lock.db")?;
    let same = name_of("./nb_file_lock.db")?;
    let folder = name_of(".")?;
    let below = name_of("nb_file_lock.db/x")?;
    let delta = name_of("nb_file_lock.db.delta")?;
    let stray = name_of("nb_file_none.db.delta")?;
    let mut host = FileHost::new(rt, rt.alloc());
    let mut writer = FileHost::new(rt, rt.alloc());
    let held = file_is_held(&mut host, &mut writer, &name, &same);
    let write_faults = (host.fault_count(), writer.fault_count());
    drop(writer);
    let mut reader = FileHost::new(rt, rt.alloc());
    let shared = readers_share(&mut host, &mut reader, &name);
    let read_faults = (host.fault_count(), reader.fault_count());
    drop(reader);
    let of_other = is_left_to_its_maker(&rt, &mut host, &name);
    let other_faults = host.fault_count();
    drop(host);
    let mut host = FileHost::new(rt, rt.alloc());
    let mut holder = FileHost::new(rt, rt.alloc());
    holder.hold_alone(name.copied())?;
    host.wait_for_locks(1);
    let alone = holds_alone(&mut holder, &mut host, &name, &delta, &stray);
    let alone_faults = (holder.fault_count(), host.fault_count());
    drop(holder);
    let changed = is_left_as_changed(&rt, &mut host, &name);
    let is_gone = host.remove(&name);
    let none = folder_is_no_file(&mut host, &folder, &below);
    assert_eq!(rt;
        (
            (held, write_faults),
            (shared, read_faults),
            (alone, alone_faults),
            (of_other, other_faults),
            (changed, is_gone),
            none,
            host.fault_count()
        ),
        (
            ([true; 14], (2, 3)),
            ([true; 5], (2, 1)),
            ([true; 6], (1, 1)),
            ([true; 5], 5),
            ([true; 4], Ok(())),
            [true; 4],
            5
        )
    );
    Ok(())
}

#[test]
fn lock_is_told_by_its_line(rt: HostRuntime) -> Result<(), Fail> {
    let lines = "\
1: POSIX  ADVISORY  WRITE 11 08:01:1234 0 EOF
2: FLOCK  ADVISORY  WRITE 12 08:01:1235 0 EOF
2: -> FLOCK  ADVISORY  READ 13 08:01:1234 0 EOF
3: FLOCK  ADVISORY  READ 14 103:fff12:1234 0 EOF
4: FLOCK  ADVISORY  READ -1 08:01:1236 0 EOF
5: FLOCK  ADVISORY  READ 15 08:01:1234 0 EOF
6: FLOCK  ADVISORY  READ 16 08:01:1234 0 EOF
7: FLOCK  ADVISORY  WRITE 17 08:0";
    assert_eq!(rt;
        [
            process_that_locks(lines, 0x801, 1234),
            process_that_locks(lines, 0x801, 1235),
            process_that_locks(lines, 0x801, 1236),
            process_that_locks(lines, 0xfff1_0312, 1234),
            process_that_locks("", 0x801, 1234)
        ],
        [Some(15), Some(12), None, Some(14), None]
    );
    Ok(())
}
