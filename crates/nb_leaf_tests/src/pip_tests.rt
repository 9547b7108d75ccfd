// Page inventory pages: where they stand, and their bits.
ghost use Rattle.std.specs.Prelude.{◌+◌, ◌^◌, ◌<◌, IsTrue};
ghost use Rattle.nb_fields.specs.Places.{is_page_size};

use nb_pip::{covers, give, is_place, is_used, lowest_free, place_of, take};

/// Whether they stand at page 1, at that page, and right before and after it.
fn stand_at(size: u32, page: u32) -> [bool; 4]
    requires size { IsTrue (is_page_size size) }
    requires behind { 0 < page }
    requires page { page + 1 < 2 ^ 20 }
{
    [
        is_place(size, 1),
        is_place(size, page),
        is_place(size, page - 1),
        is_place(size, page + 1),
    ]
}

#[test]
fn last_places(rt: HostRuntime) {
    assert_eq!(rt;
        [
            place_of(1024, 132),
            place_of(2048, 65),
            place_of(4096, 32),
            place_of(8192, 16),
            place_of(16384, 8),
            place_of(32768, 4),
        ],
        [1047551, 1048319, 1040383, 1044479, 1046527, 1047551]
    );
}

#[test]
fn first_places(rt: HostRuntime) {
    assert_eq!(rt;
        [
            place_of(1024, 0),
            place_of(2048, 0),
            place_of(4096, 0),
            place_of(8192, 0),
            place_of(16384, 0),
            place_of(32768, 0),
        ],
        [1; 6]
    );
}

#[test]
fn no_place_beside_the_last(rt: HostRuntime) {
    assert_eq!(rt;
        [
            stand_at(1024, 1047551),
            stand_at(2048, 1048319),
            stand_at(4096, 1040383),
            stand_at(8192, 1044479),
            stand_at(16384, 1046527),
            stand_at(32768, 1047551),
        ],
        [[true, true, false, false]; 6]
    );
}

#[test]
fn bits_of_pages(rt: HostRuntime) {
    assert_eq!(rt;
        (covers(1024, 7935), covers(1024, 7940)),
        ((0, 7935), (1, 4))
    );
}

#[test]
fn bits_of_a_page(rt: HostRuntime) {
    let mut map = [0; 1024];
    let none = lowest_free(&map, 0, 7936);
    give(&mut map, 9);
    give(&mut map, 7935);
    assert_eq!(rt;
        (none, map[33], map[1023], is_used(&map, 8), is_used(&map, 9)),
        (None, 2, 128, true, false)
    );
}

#[test]
fn the_lowest_free_bit(rt: HostRuntime) {
    let mut map = [0; 1024];
    give(&mut map, 9);
    give(&mut map, 7935);
    let found = [
        lowest_free(&map, 5, 7936),
        lowest_free(&map, 9, 10),
        lowest_free(&map, 5, 9),
        lowest_free(&map, 10, 7936),
    ];
    take(&mut map, 9);
    assert_eq!(rt;
        (found, map[33], lowest_free(&map, 0, 7935)),
        ([Some(9), Some(9), None, Some(7935)], 0, None)
    );
}
