// SCN inventory pages: where they stand, and their entries.
ghost use Rattle.std.specs.Prelude.{◌+◌, ◌^◌, ◌<◌, IsTrue};
ghost use Rattle.nb_fields.specs.Places.{is_page_size};

use nb_scn::{covers, entry, fill, is_place, place_of, raise};

/// Whether they stand at page 2, at that page, at page 0 and right after that page.
fn stand_at(size: u32, page: u32) -> [bool; 4]
    requires size { IsTrue (is_page_size size) }
    requires page { page + 1 < 2 ^ 20 }
{
    [
        is_place(size, 2),
        is_place(size, page),
        is_place(size, 0),
        is_place(size, page + 1),
    ]
}

#[test]
fn first_places(rt: HostRuntime) {
    assert_eq!(rt;
        [
            place_of(1024, 0),
            place_of(2048, 0),
            place_of(4096, 0),
            place_of(8192, 0),
            place_of(16384, 0),
            place_of(32768, 0),
        ],
        [2; 6]
    );
}

#[test]
fn no_place_behind_the_last(rt: HostRuntime) {
    assert_eq!(rt;
        [
            stand_at(1024, 1048544),
            stand_at(2048, 1048320),
            stand_at(4096, 1048512),
            stand_at(8192, 1048560),
            stand_at(16384, 1046528),
            stand_at(32768, 1047552),
        ],
        [[true, true, false, false]; 6]
    );
}

/// Where the entry of that page stands: the page that has it, that page's number among them, and the entry's number.
fn entry_place(size: u32, page: u32) -> (u32, u32, u32)
    requires size { IsTrue (is_page_size size) }
    requires page { page < 2 ^ 20 }
{
    let (k, index) = covers(size, page);
    (place_of(size, k), k, index)
}

#[test]
fn entries_of_the_last_places(rt: HostRuntime) {
    assert_eq!(rt;
        [
            entry_place(1024, 1048551),
            entry_place(2048, 1048327),
            entry_place(4096, 1048519),
            entry_place(8192, 1048567),
            entry_place(16384, 1046535),
            entry_place(32768, 1047559),
        ],
        [
            (1048544, 4228, 7),
            (1048320, 2080, 7),
            (1048512, 1032, 7),
            (1048560, 514, 7),
            (1046528, 256, 7),
            (1047552, 128, 7),
        ]
    );
}

#[test]
fn entries_of_a_page(rt: HostRuntime) {
    let mut page = [1; 1024];
    fill(&mut page, 3, 5);
    raise(&mut page, 247, 0x0403_0201);
    raise(&mut page, 247, 6);
    assert_eq!(rt;
        (
            page[15],
            page[16],
            page[31],
            entry(&page, 246),
            entry(&page, 247),
            page[1020],
            page[1023]
        ),
        (1, 3, 0, 5, 0x0403_0201, 1, 4)
    );
}
