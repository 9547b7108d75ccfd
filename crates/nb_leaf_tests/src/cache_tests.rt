ghost use Rattle.std.specs.Prelude.{◌≡◌};

use nb_cache::Cache;
use nb_host::Fault;
use std::alloc::AllocError;

// Keeps a page of four bytes, unless it would drop a waiting one.
fn keep(cache: &mut Cache, page: u32, byte: u8)
    requires { cache.old.page_size ≡ 4 }
    ensures { cache.new.page_size ≡ cache.old.page_size }
{
    if let None = cache.would_drop(page) {
        cache.keep(page, &[byte; 4]);
    }
}

// Drops a page that is held, waiting or not.
fn drop_page(cache: &mut Cache, page: u32)
    requires { cache.old.page_size ≡ 4 }
    ensures { cache.new.page_size ≡ cache.old.page_size }
{
    if cache.peek(page, &mut [0; 4]) {
        cache.clean(page);
        cache.drop_page(page);
    }
}

// What is answered of three pages, of which two are held, the last used ones.
fn three_kept(cache: &mut Cache) -> (bool, [u8; 4], [bool; 2], u32)
    requires { cache.old.page_size ≡ 4 }
    ensures { cache.new.page_size ≡ cache.old.page_size }
{
    let mut page = [0; 4];
    keep(cache, 7, b'a');
    keep(cache, 8, b'b');
    let is_found = cache.look(7, &mut page);
    keep(cache, 9, b'c');
    let are_held = [cache.peek(8, &mut [0; 4]), cache.peek(9, &mut [0; 4])];
    (is_found, page, are_held, cache.held())
}

// Which pages can wait, and which goes out first, before and after one of them has.
fn two_waiting(cache: &mut Cache) -> ([bool; 3], [Option<(u32, u8)>; 2], Option<u32>)
    requires { cache.old.page_size ≡ 4 }
    ensures { cache.new.page_size ≡ cache.old.page_size }
{
    let do_wait = [cache.dirty(7, 3), cache.dirty(9, 2), cache.dirty(8, 1)];
    let first = cache.next_dirty();
    let would_drop = cache.would_drop(8);
    if cache.peek(9, &mut [0; 4]) {
        cache.clean(9);
    }
    (do_wait, [first, cache.next_dirty()], would_drop)
}

// What is left of a page that is dropped.
fn one_dropped(cache: &mut Cache) -> (bool, u32, Option<u32>)
    requires { cache.old.page_size ≡ 4 }
{
    drop_page(cache, 7);
    (
        cache.look(7, &mut [0; 4]),
        cache.held(),
        cache.would_drop(8),
    )
}

#[test]
fn last_used_pages_are_held(rt: HostRuntime) -> Result<(), Fault> {
    let mut cache = Cache::new(rt.alloc(), 2, 4)?;
    let kept = three_kept(&mut cache);
    let waiting = two_waiting(&mut cache);
    let dropped = one_dropped(&mut cache);
    assert_eq!(rt;
        (kept, waiting, dropped),
        (
            (true, *b"aaaa", [false, true], 2),
            ([true, true, false], [Some((9, 2)), Some((7, 3))], Some(7)),
            (false, 1, None)
        )
    );
    Ok(())
}

// What is to be held of a page.
#[derive(Clone, Copy, Drop)]
struct Page {
    page: u32,
    byte: u8,
    rank: Option<u8>,
}

fn find(pages: &[Page], page: u32) -> Option<Page> {
    for held in pages {
        if held.page == page {
            return Some(*held);
        }
    }
    None
}

// The pages after this one was used last, of which at most eight are held.
fn used(pages: &mut Vec<Page>, page: Page) -> Result<(), AllocError> {
    pages.retain(|held| held.page != page.page);
    if pages.len() >= 8 {
        pages.pop();
    }
    pages.insert(0, page)?;
    Ok(())
}

fn rank(pages: &mut Vec<Page>, page: u32, rank: Option<u8>) {
    for held in pages.iter_mut() {
        if held.page == page {
            held.rank = rank;
        }
    }
}

fn first_waiting(pages: &[Page]) -> Option<(u32, u8)> {
    let mut first: Option<(u32, u8)> = None;
    for held in pages {
        let Some(own) = held.rank else {
            continue;
        };
        match first {
            Some((page, lowest)) if (lowest, page) < (own, held.page) => {}
            _ => first = Some((held.page, own)),
        }
    }
    first
}

// One step of the sequence, on the cache and on the list.
fn step(
    cache: &mut Cache,
    pages: &mut Vec<Page>,
    page: u32,
    what: u32,
    byte: u8,
) -> Result<bool, AllocError>
    requires { cache.old.page_size ≡ 4 }
    ensures { cache.new.page_size ≡ cache.old.page_size }
{
    let held = find(pages.as_slice(), page);
    let mut bytes = [0; 4];
    match what {
        0..=2 => {
            keep(cache, page, byte);
            let rank = held.and_then(|held| held.rank);
            used(pages, Page { page, byte, rank })?;
            Ok(true)
        }
        3 | 4 => {
            let found = cache.look(page, &mut bytes);
            let Some(held) = held else {
                return Ok(!found && bytes == [0; 4]);
            };
            used(pages, held)?;
            Ok(found && bytes == [held.byte; 4])
        }
        5 => {
            drop_page(cache, page);
            pages.retain(|held| held.page != page);
            Ok(true)
        }
        _ => {
            let found = cache.dirty(page, byte % 4);
            rank(pages, page, Some(byte % 4));
            Ok(found == held.is_some())
        }
    }
}

// A waiting page that a keep would drop is written first.
fn make_way(cache: &mut Cache, pages: &mut Vec<Page>, page: u32) -> bool
    requires { cache.old.page_size ≡ 4 }
    ensures { cache.new.page_size ≡ cache.old.page_size }
{
    let mut expected = None;
    if pages.len() == 8 && find(pages.as_slice(), page).is_none() {
        expected = pages.last().copied();
    }
    let waiting = cache.would_drop(page);
    if let Some(waiting) = waiting {
        if cache.peek(waiting, &mut [0; 4]) {
            cache.clean(waiting);
        }
        rank(pages, waiting, None);
    }
    waiting == expected.and_then(|last| last.rank.map(|_| last.page))
}

fn same(cache: &Cache, pages: &[Page]) -> bool
    requires { cache.now.page_size ≡ 4 }
{
    let mut bytes = [0; 4];
    for held in pages {
        if !cache.peek(held.page, &mut bytes) || bytes != [held.byte; 4] {
            return false;
        }
    }
    cache.held() as usize == pages.len() && cache.next_dirty() == first_waiting(pages)
}

// Whether the cache answers as the list does at each of many steps.
fn answers_as(cache: &mut Cache, pages: &mut Vec<Page>) -> Result<bool, AllocError>
    requires { cache.old.page_size ≡ 4 }
{
    let mut random: u32 = 1;
    for turn in 0..600 {
        random = random.wrapping_mul(1664525).wrapping_add(1013904223);
        // The pages wander, so that the index begins anew now and then.
        let page = turn / 8 + (random >> 16) % 12;
        let what = (random >> 24) % 8;
        let byte = ((random >> 8) % 256) as u8;
        let way = make_way(cache, pages, page);
        if !way || !step(cache, pages, page, what, byte)? || !same(cache, pages.as_slice()) {
            return Ok(false);
        }
    }
    Ok(true)
}

#[test]
fn as_a_list_of_pages(rt: HostRuntime) -> Result<(), Fault> {
    let mut cache = Cache::new(rt.alloc(), 8, 4)?;
    let mut pages: Vec<Page> = Vec::new(rt.alloc());
    assert!(rt; answers_as(&mut cache, &mut pages)?);
    Ok(())
}
