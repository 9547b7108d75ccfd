// A level of version 101 is written page by page, and read by a reader of which one call fails.
ghost use Rattle.std.specs.Prelude.{◌≡◌};

use crate::sample::name_of;
use nb_host::{Fault, HostFault, Name};
use nb_level::{Item, LevelHead, LevelReader, write_end, write_head, write_page_at};
use nb_mem::MemHost;
use nb_page::{Header, stamp, write_header};
use std::alloc::Global;
use std::test::Fail;

// The head of the file: pages of 1024 bytes, after SCN 3 at SCN 8.
const HEAD: LevelHead = LevelHead {
    level: 1,
    guid: [7; 16],
    previous: [6; 16],
    page_size: 1024,
    scn: 8,
    previous_scn: 3,
};

// Page 0 as it is while the backup runs.
fn first_page() -> [u8; 1024] {
    let mut page = [0; 1024];
    stamp(&mut page, 1, 9, 0);
    let header = Header {
        page_size: 1024,
        state: 1,
        scn: 9,
        guid: [7; 16],
        pending: [0; 16],
    };
    write_header(&mut page, &header);
    page
}

// Pages 0, 2 and 3.
fn write_level(host: &mut MemHost, name: &Name) -> Result<(), HostFault> {
    write_head(host, name, &HEAD, 101)?;
    write_page_at(host, name, 0, &first_page())?;
    write_page_at(host, name, 2, &[5; 1024])?;
    write_page_at(host, name, 3, &[5; 1024])?;
    write_end(host, name, 3)
}

// The page that the next call gives, or 9 where it gives none.
fn next_number(reader: &mut LevelReader, host: &mut MemHost) -> u32
    requires { reader.old.head.page_size ≡ 1024 }
    ensures { reader.new.head.page_size ≡ 1024 }
{
    match reader.next(host, &mut [0; 1024]) {
        Ok(Item::PageAt(number)) => number,
        _ => 9,
    }
}

// What four calls give.
fn four_numbers(reader: &mut LevelReader, host: &mut MemHost) -> [u32; 4]
    requires { reader.old.head.page_size ≡ 1024 }
{
    [
        next_number(reader, host),
        next_number(reader, host),
        next_number(reader, host),
        next_number(reader, host),
    ]
}

// The version and the head that a reader finds, and the pages.
fn read_level(
    alloc: Global,
    host: &mut MemHost,
    name: &Name,
) -> Result<(u16, LevelHead, [u32; 4]), Fault> {
    let mut reader = LevelReader::start(alloc, host, name)?;
    let head = reader.head();
    if head.page_size != 1024 {
        return Err(Fault::Device);
    }
    Ok((reader.version(), head, four_numbers(&mut reader, host)))
}

// What is written, and read again.
fn write_and_read(
    alloc: Global,
    host: &mut MemHost,
    name: &Name,
) -> Result<(u16, LevelHead, [u32; 4]), Fault> {
    write_level(host, name)?;
    read_level(alloc, host, name)
}

// The calls up to the failing one write the file, begin to read it and read page 0.
#[test]
fn a_read_that_fails_is_made_again(rt: HostRuntime) -> Result<(), Fail> {
    let name = name_of("a.1")?;
    let mut host = MemHost::failing(rt.alloc(), &[12])?;
    let said = write_and_read(rt.alloc(), &mut host, &name)?;
    assert_eq!(rt; (said, host.fault_count()), ((101, HEAD, [0, 9, 2, 3]), 1));
    Ok(())
}
