// Fields of a page, and tables of cases.
use nb_fields::layouts::{head, header};
use nb_fields::{PageKind, cases, fields, number_at, put_number};
use std::test::Fail;

#[test]
fn fields_are_written_and_read(rt: HostRuntime) -> Result<(), Fail> {
    let mut page = [0u8; 1024];
    let guid = [7; 16];
    fields!(&mut page; head::Kind = u64::from(PageKind::Header.code()), head::Scn = 0x0102_0304, header::Guid = &guid);
    fields!(&page; kind: head::Kind, scn: head::Scn, kept: header::Guid);
    assert_eq!(rt; (kind, scn, kept), (1, 0x0102_0304, guid));
    assert_eq!(rt; page[8], 4, "the lowest byte stands first");
    Ok(())
}

#[test]
fn numbers_are_put(rt: HostRuntime) -> Result<(), Fail> {
    let mut page = [0u8; 1024];
    put_number(&mut page, 1016, 8, u64::MAX);
    assert_eq!(rt;
        (number_at(&page, 1016, 8), number_at(&page, 1012, 4)),
        (u64::MAX, 0)
    );
    Ok(())
}

#[test]
fn cells_go_by_row_and_column(rt: HostRuntime) -> Result<(), Fail> {
    let table = cases!([1, 2, 3], [4, 5, 6]);
    assert_eq!(rt; (table.at(1, 0), table.at(0, 2)), (4, 3));
    Ok(())
}
