// Single calls of a difference file on a host in memory: entries that are only drafted, and what is left without the file.
ghost use Rattle.std.specs.Prelude.{◌≡◌, ◌<◌, OnOk};
ghost use Rattle.nb_fields.specs.Places.{most_pages};

use crate::sample::name_of;
use nb_delta::Delta;
use nb_host::Fault;
use nb_mem::MemHost;
use std::test::Fail;

/// Adds an entry for a page that has none, of which each byte is the same.
fn add(host: &mut MemHost, delta: &mut Delta, page: u32, byte: u8) -> Result<u32, Fault>
    requires size { delta.old.page_size ≡ 1024 }
    requires none_waits { delta.old.drafted ≡ 0 }
    requires below { page < most_pages }
    ensures known { OnOk result (delta.new.page_size ≡ 1024) }
    ensures none { OnOk result (delta.new.drafted ≡ 0) }
{
    match delta.slot_of(host, page)? {
        Some(_) => Err(Fault::Device),
        None => Ok(delta.add(host, page, &[byte; 1024], true)?),
    }
}

/// Makes the file, with entries for pages 0 and 1.
fn add_two(host: &mut MemHost, delta: &mut Delta) -> Result<(), Fault>
    requires size { delta.old.page_size ≡ 1024 }
    ensures known { OnOk result (delta.new.page_size ≡ 1024) }
    ensures none { OnOk result (delta.new.drafted ≡ 0) }
{
    delta.make(host)?;
    add(host, delta, 0, 0)?;
    add(host, delta, 1, 1)?;
    Ok(())
}

/// The page that the second entry names, and none where there is no such entry.
fn second_entry(host: &mut MemHost, delta: &mut Delta) -> Result<Option<u32>, Fault>
    ensures { delta.new ≡ delta.old }
{
    if delta.count() < 2 {
        return Ok(None);
    }
    Ok(Some(delta.entry(host, 1)?))
}

/// The slot of an entry that is drafted for a page that has none.
fn draft(host: &mut MemHost, delta: &mut Delta, page: u32) -> Result<u32, Fault>
    requires { page < most_pages }
    ensures { OnOk result (delta.new.page_size ≡ delta.old.page_size) }
{
    match delta.slot_of(host, page)? {
        Some(_) => Err(Fault::Device),
        None => Ok(delta.draft(page)?),
    }
}

/// How many entries there are, and how many of them are drafted.
fn counts(delta: &Delta) -> (u32, u32) {
    (delta.count(), delta.drafted())
}

/// The slot of a drafted entry, and the entries before and after the file is taken away.
fn draft_and_clear(
    host: &mut MemHost,
    delta: &mut Delta,
) -> Result<(u32, (u32, u32), (u32, u32)), Fault> {
    let slot = draft(host, delta, 7)?;
    let before = counts(delta);
    delta.clear(host)?;
    Ok((slot, before, counts(delta)))
}

/// The page of the second entry, and what drafting and clearing answer after it.
fn said(
    host: &mut MemHost,
    delta: &mut Delta,
) -> Result<(Option<u32>, (u32, (u32, u32), (u32, u32))), Fault>
    requires { delta.old.page_size ≡ 1024 }
{
    add_two(host, delta)?;
    let page = second_entry(host, delta)?;
    Ok((page, draft_and_clear(host, delta)?))
}

#[test]
fn entries_are_drafted_and_cleared(rt: HostRuntime) -> Result<(), Fail> {
    let name = name_of("a.db.delta")?;
    let mut host = MemHost::new(rt.alloc())?;
    let mut delta = Delta::blank(rt.alloc(), &name, 1024)?;
    let said = said(&mut host, &mut delta)?;
    assert_eq!(rt;
        (said, host.file(&name)),
        ((Some(1), (3, (3, 1), (0, 0))), None)
    );
    Ok(())
}
