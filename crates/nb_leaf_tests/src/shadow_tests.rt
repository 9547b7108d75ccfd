// A host that keeps a twin of one database, over a host in memory.
use nb_host::{Host, HostFault, MOST_BASE_NAME, Name};
use nb_mem::MemHost;
use nb_shadow::{Shadow, Twin};
use std::test::Fail;

/// That twin of that database.
fn twin(db: &Name, copy: &Name) -> Option<Twin> {
    if db.as_str().len() > MOST_BASE_NAME || copy.as_str().len() > MOST_BASE_NAME {
        return None;
    }
    Twin::new(db, copy)
}

fn name(text: &str) -> Result<Name, Fail> {
    Ok(Name::read(text).ok_or("name")?)
}

/// Makes a file of two pages and one of some bytes, and syncs both.
fn change<H: Host>(host: &mut H, pages: &Name, bytes: &Name) -> Result<(), HostFault> {
    host.make(pages)?;
    host.write_page(pages, 1, &[7; 1024])?;
    host.append(bytes, b"slot")?;
    host.sync(pages)?;
    host.sync(bytes)
}

/// How long the one file is, whether it has its first page, and how many bytes the other has after its first.
fn ask<H: Host>(
    host: &mut H,
    pages: &Name,
    bytes: &Name,
) -> Result<(Option<u64>, bool, usize), HostFault> {
    let mut page = [0; 1024];
    let size = host.size(pages)?;
    let whole = host.read_page(pages, 0, &mut page)?;
    Ok((size, whole, host.read_at(bytes, 1, &mut page)?))
}

/// What is given.
fn take<H: Host>(host: &mut H) -> Result<(u8, u64), HostFault> {
    host.say(b"ok\n")?;
    Ok((host.guid()?[15], host.seconds()?))
}

#[test]
fn a_change_goes_to_the_twin(rt: HostRuntime) -> Result<(), Fail> {
    let mut host = MemHost::new(rt.alloc())?;
    let db = name("a.db")?;
    let copy = name("a.shd")?;
    let mut shadow = Shadow {
        host: &mut host,
        twin: twin(&db, &copy).ok_or("apart")?,
    };
    change(&mut shadow, &db, &name("a.db.delta")?)?;
    let lost = host.left(0)?;
    assert_eq!(rt; lost.file(&copy).ok_or("twin")?.len(), 2048);
    assert_eq!(rt;
        lost.file(&name("a.shd.delta")?)
            .ok_or("its difference file")?,
        b"slot".as_slice()
    );
    Ok(())
}

#[test]
fn what_is_asked_is_the_hosts(rt: HostRuntime) -> Result<(), Fail> {
    let mut host = MemHost::new(rt.alloc())?;
    let db = name("a.db")?;
    let delta = name("a.db.delta")?;
    let mut shadow = Shadow {
        host: &mut host,
        twin: twin(&db, &name("a.shd")?).ok_or("apart")?,
    };
    change(&mut shadow, &db, &delta)?;
    assert_eq!(rt; ask(&mut shadow, &db, &delta)?, (Some(2048), true, 3));
    assert_eq!(rt; take(&mut shadow)?, (1, 1_000_000_000));
    Ok(())
}

#[test]
fn a_twin_is_refused_by_its_own_name(rt: HostRuntime) -> Result<(), Fail> {
    let mut host = MemHost::new(rt.alloc())?;
    let copy = name("a.shd")?;
    let mut shadow = Shadow {
        host: &mut host,
        twin: twin(&name("a.db")?, &copy).ok_or("apart")?,
    };
    assert_eq!(rt; shadow.size(&copy).is_err(), true);
    assert_eq!(rt; shadow.remove(&name("a.shd.delta")?).is_err(), true);
    assert_eq!(rt;
        (shadow.twin.refused(), shadow.twin.is_behind()),
        (2, false)
    );
    Ok(())
}

#[test]
fn a_twin_that_failed_is_written_no_further(rt: HostRuntime) -> Result<(), Fail> {
    let mut host = MemHost::failing(rt.alloc(), &[2])?;
    let db = name("a.db")?;
    let copy = name("a.shd")?;
    let mut shadow = Shadow {
        host: &mut host,
        twin: twin(&db, &copy).ok_or("apart")?,
    };
    assert_eq!(rt; shadow.append(&db, b"page").is_err(), true);
    assert_eq!(rt; shadow.append(&db, b"more").is_err(), true);
    assert_eq!(rt; (shadow.twin.refused(), shadow.twin.is_behind()), (1, true));
    assert_eq!(rt; (host.calls(), host.fault_count()), (2, 1));
    assert_eq!(rt; host.file(&db).ok_or("file")?, b"page".as_slice());
    assert_eq!(rt; host.file(&copy).is_none(), true);
    Ok(())
}

#[test]
fn a_file_is_no_twin_of_itself(rt: HostRuntime) -> Result<(), Fail> {
    let db = name("a.db")?;
    assert_eq!(rt; twin(&db, &db).is_none(), true);
    assert_eq!(rt; twin(&db, &name("a.db.delta")?).is_none(), true);
    Ok(())
}
