// Pages of a new database, texts in pages, and the header.
use nb_page::{
    Header, fresh, fresh_count, put_text, raw_text, read_head, read_header, stamp, write_header,
};
use std::test::Fail;

/// How many pages a new database with eight raw pages has, and one of them.
fn new_page(number: u32) -> (u32, [u8; 1024]) {
    let mut page = [7; 1024];
    let count = fresh_count(1024, 8);
    if number < count {
        fresh(&mut page, 8, number);
    }
    (count, page)
}

/// How page 0 begins.
const FIRST: &[u8; 80] = b"\x01\0\0\0\x01\0\0\0\x01\0\0\0\0\0\0\0NBDB\x01\0\0\0\0\x04\0\0\x01\0\0\0\
    \0\0\0\0\0\0\0\0\0\0\0\0\0\0\0\0\0\0\0\0\0\0\0\0\0\0\0\0\0\0\0\0\
    \x01\0\0\0\0\0\0\0\x03\0\0\0\x04\0\0\0";

#[test]
fn a_new_database_is_as_the_format_says(rt: HostRuntime) -> Result<(), Fail> {
    let (count, first) = new_page(0);
    let (_, inventory) = new_page(1);
    assert_eq!(rt;
        (
            count,
            first.starts_with(FIRST),
            inventory[32..].starts_with(b"\0\xe0\xff")
        ),
        (13, true, true)
    );
    Ok(())
}

#[test]
fn a_text_is_put_into_a_page(rt: HostRuntime) -> Result<(), Fail> {
    let (_, mut page) = new_page(6);
    put_text(&mut page, b"hello");
    stamp(&mut page, 8, 1, 6);
    assert_eq!(rt;
        (&page[..24], read_head(&page).generation),
        (
            b"\x08\0\0\0\x02\0\0\0\x01\0\0\0\x06\0\0\0\x05\0hello\0".as_slice(),
            2
        )
    );
    Ok(())
}

#[test]
fn a_text_has_at_most_200_bytes(rt: HostRuntime) -> Result<(), Fail> {
    let mut page = [0; 1024];
    put_text(&mut page, &[b'x'; 200]);
    let longest = raw_text(&page).map(|text| text.len());
    page[16] = 201;
    let longer = raw_text(&page).map(|text| text.len());
    assert_eq!(rt; (longest, longer), (Some(200), None));
    Ok(())
}

#[test]
fn a_header_is_read_back(rt: HostRuntime) -> Result<(), Fail> {
    let mut page = [0; 1024];
    stamp(&mut page, 1, 9, 0);
    let header = Header {
        page_size: 4096,
        state: 1,
        scn: 9,
        guid: [1; 16],
        pending: [2; 16],
    };
    write_header(&mut page, &header);
    let kept = read_header(&page);
    page[25] = 17;
    assert_eq!(rt; (kept, read_header(&page)), (Some(header), None));
    Ok(())
}
