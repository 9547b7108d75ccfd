// Calls of the engine: which pages are in memory, and data pages that no chain leads to.
use crate::sample::base_name;
use nb_engine::Engine;
use nb_host::{Fault, Host, Refusal};
use nb_mem::MemHost;
use std::alloc::Global;
use std::test::Fail;

/// What these steps answer on a new database of 13 pages of 1,024 bytes, which was opened with room for two pages in memory. They borrow it,
/// so that it is dropped in one place.
fn on_new_base<T, F: FnOnce(&mut MemHost, &mut Engine) -> Result<T, Fault>>(
    alloc: Global,
    mut host: MemHost,
    steps: F,
) -> Result<T, Fault>
    requires { F.IsAlwaysCallable steps }
{
    Engine::create(alloc, &mut host, &base_name()?, 1024, 8, 4)?;
    let mut engine = Engine::attach(alloc, &mut host, &base_name()?, 2)?;
    steps(&mut host, &mut engine)
}

/// How often the host is asked as page 6 is read.
fn reads_of(host: &mut MemHost, engine: &mut Engine) -> Result<u64, Fault> {
    let before = host.read_count();
    engine.page_read(host, 6)?;
    Ok(host.read_count().saturating_sub(before))
}

/// The reads of page 6, of page 6 once more, and how many pages are in memory then and may be.
fn two_reads(host: &mut MemHost, engine: &mut Engine) -> Result<(u64, u64, u32, u32), Fault> {
    let first = reads_of(host, engine)?;
    let second = reads_of(host, engine)?;
    Ok((first, second, engine.held(), engine.capacity()))
}

#[test]
fn a_second_read_asks_nothing(rt: HostRuntime) -> Result<(), Fail> {
    let host = MemHost::new(rt.alloc())?;
    // The page and its inventory page.
    assert_eq!(rt; on_new_base(rt.alloc(), host, two_reads)?, (2, 0, 2, 2));
    Ok(())
}

/// The kind of page 3, and a byte of it, once it was written with another kind in its head and another byte after.
fn written(host: &mut MemHost, engine: &mut Engine) -> Result<(u8, u8), Fault> {
    let mut page = [0; 1024];
    if engine.page_size() != 1024 {
        return Err(Fault::Device);
    }
    engine.data_read(host, 3, 0, &mut page)?;
    page[0] = 8;
    page[40] = 9;
    engine.data_write(host, 3, &page)?;
    engine.data_read(host, 3, 0, &mut page)?;
    Ok((page[0], page[40]))
}

/// The head that is given doesn't count: the page is a data page still, one of the catalogue.
#[test]
fn a_page_is_written_behind_its_head(rt: HostRuntime) -> Result<(), Fail> {
    let host = MemHost::new(rt.alloc())?;
    assert_eq!(rt; on_new_base(rt.alloc(), host, written)?, (5, 9));
    Ok(())
}

/// The page that a call names as none of a database.
fn page_in(answer: Result<(), Fault>) -> Option<u32> {
    match answer {
        Err(Fault::Refused(Refusal::NotDatabase { page })) => Some(page),
        _ => None,
    }
}

/// The pages that a read and a write of page 5 name, as one of the catalogue. It is a raw page.
fn raw_pages(host: &mut MemHost, engine: &mut Engine) -> Result<[Option<u32>; 2], Fault> {
    let mut page = [0; 1024];
    if engine.page_size() != 1024 {
        return Err(Fault::Device);
    }
    let read = page_in(engine.data_read(host, 5, 0, &mut page));
    Ok([read, page_in(engine.data_write(host, 5, &page))])
}

#[test]
fn a_raw_page_is_no_data_page(rt: HostRuntime) -> Result<(), Fail> {
    let host = MemHost::new(rt.alloc())?;
    assert_eq!(rt; on_new_base(rt.alloc(), host, raw_pages)?, [Some(5); 2]);
    Ok(())
}

/// The number of a new page after one that was given back.
fn number_again(host: &mut MemHost, engine: &mut Engine) -> Result<u32, Fault> {
    engine.data_new(host, None, &[])?;
    engine.data_free(host, 13)?;
    engine.data_new(host, None, &[])
}

#[test]
fn a_data_page_is_given_back(rt: HostRuntime) -> Result<(), Fail> {
    let host = MemHost::new(rt.alloc())?;
    assert_eq!(rt; on_new_base(rt.alloc(), host, number_again)?, 13);
    Ok(())
}

/// The page that a write of page 3 names where page 2 isn't the SCN page.
fn spoilt_page(host: &mut MemHost, engine: &mut Engine) -> Result<Option<u32>, Fault> {
    if engine.page_size() != 1024 {
        return Err(Fault::Device);
    }
    host.write_page(&base_name()?, 2, &[8; 1024])?;
    Ok(page_in(engine.data_write(host, 3, &[0; 1024])))
}

#[test]
fn a_page_is_not_written_without_its_scn_page(rt: HostRuntime) -> Result<(), Fail> {
    let host = MemHost::new(rt.alloc())?;
    assert_eq!(rt; on_new_base(rt.alloc(), host, spoilt_page)?, Some(2));
    Ok(())
}
