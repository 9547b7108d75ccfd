// A standby and its ship file are looked at, and the first step follows.
use crate::sample::name_of;
use nb_host::{Fault, HostFault, MOST_BASE_NAME, Name};
use nb_level::{LevelHead, write_end, write_head, write_page_at};
use nb_mem::MemHost;
use nb_page::{Header, stamp, write_header};
use nb_ship::{Found, Look, Step, decide, look, ship_name};
use std::alloc::Global;
use std::test::Fail;

// The increment: pages of 1024 bytes, of backup 7, after backup 6.
const HEAD: LevelHead = LevelHead {
    level: 1,
    guid: [7; 16],
    previous: [6; 16],
    page_size: 1024,
    scn: 8,
    previous_scn: 3,
};

// A page 0 in that state, of that backup.
fn first_page(state: u16, guid: u8, pending: u8) -> [u8; 1024] {
    let mut page = [0; 1024];
    stamp(&mut page, 1, 9, 0);
    let header = Header {
        page_size: 1024,
        state,
        scn: 9,
        guid: [guid; 16],
        pending: [pending; 16],
    };
    write_header(&mut page, &header);
    page
}

// A read-only standby of five pages.
fn put_standby(host: &mut MemHost, name: &Name, first: &[u8; 1024]) -> Result<(), Fault> {
    let mut file = [0; 5120];
    file[..1024].copy_from_slice(first);
    file[65] = 1;
    host.put_file(name, &file)
}

fn put_increment(host: &mut MemHost, ship: &Name) -> Result<(), HostFault> {
    write_head(host, ship, &HEAD, 101)?;
    write_page_at(host, ship, 0, &first_page(1, 7, 0))?;
    write_end(host, ship, 1)
}

// What is found beside a standby in that state, of that backup.
fn found_beside(
    alloc: Global,
    host: &mut MemHost,
    standby: &Name,
    state: u16,
    guid: u8,
    pending: u8,
) -> Result<Look, Fault> {
    if standby.as_str().len() > MOST_BASE_NAME {
        return Err(Fault::Device);
    }
    put_standby(host, standby, &first_page(state, guid, pending))?;
    look(alloc, host, standby)
}

// What is found beside a standby of that backup.
fn seen(guid: u8, found: Found) -> Look {
    Look {
        guid: [guid; 16],
        found,
    }
}

// What is found with no ship file, a broken one, and an increment that goes on from the standby, that is being merged, and that was merged.
fn five_looks(
    alloc: Global,
    host: &mut MemHost,
    standby: &Name,
    ship: &Name,
) -> Result<[Look; 5], Fault> {
    let nothing = found_beside(alloc, host, standby, 0, 6, 0)?;
    host.put_file(ship, b"NBAK")?;
    let broken = found_beside(alloc, host, standby, 0, 6, 0)?;
    host.put_file(ship, b"")?;
    put_increment(host, ship)?;
    let next = found_beside(alloc, host, standby, 0, 6, 0)?;
    let pending = found_beside(alloc, host, standby, 3, 6, 7)?;
    let applied = found_beside(alloc, host, standby, 0, 7, 0)?;
    Ok([nothing, broken, next, pending, applied])
}

#[test]
fn a_standby_is_looked_at(rt: HostRuntime) -> Result<(), Fail> {
    let standby = name_of("s.db")?;
    let ship = name_of("s.db.ship")?;
    let mut host = MemHost::new(rt.alloc())?;
    let looks = five_looks(rt.alloc(), &mut host, &standby, &ship)?;
    assert_eq!(rt;
        looks,
        [
            seen(6, Found::Nothing),
            seen(6, Found::Broken),
            seen(6, Found::Next([7; 16])),
            seen(6, Found::Pending([7; 16])),
            seen(7, Found::Applied),
        ]
    );
    Ok(())
}

#[test]
fn a_ship_file_has_its_name(rt: HostRuntime) -> Result<(), Fail> {
    let standby = name_of("s.db")?;
    if standby.as_str().len() <= MOST_BASE_NAME {
        assert_eq!(rt; ship_name(&standby), name_of("s.db.ship")?);
    }
    Ok(())
}

// The first step, where the history names the next backup or doesn't.
fn steps(found: Found) -> [Step; 2] {
    let look = seen(6, found);
    [decide(&look, true), decide(&look, false)]
}

#[test]
fn the_first_step_follows(rt: HostRuntime) -> Result<(), Fail> {
    assert_eq!(rt;
        [
            steps(Found::Nothing),
            steps(Found::Broken),
            steps(Found::Applied),
            steps(Found::Next([7; 16])),
            steps(Found::Pending([7; 16])),
        ],
        [
            [Step::Copy, Step::Copy],
            [Step::Discard, Step::Discard],
            [Step::Discard, Step::Discard],
            [Step::Apply, Step::Discard],
            [Step::Apply, Step::Apply],
        ]
    );
    Ok(())
}
