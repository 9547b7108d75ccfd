use nb_host::Name;
use nb_model::{NameList, RowList, TableName, Text};
use std::alloc::Global;

fn a_text(alloc: Global) -> usize {
    match Text::new(alloc, b"hello") {
        Ok(text) => text.as_slice().len(),
        Err(_) => 0,
    }
}

fn two_rows(alloc: Global) -> (usize, u64) {
    let mut rows = RowList::new(alloc);
    if rows.push(7, b"a").is_err() || rows.push(9, b"b").is_err() {
        return (0, 0);
    }
    if rows.len() != 2 {
        return (rows.len(), 0);
    }
    (rows.len(), rows.row(1).0)
}

fn two_names(alloc: Global) -> usize {
    let mut names = NameList::new(alloc);
    for text in ["a.0", "a.1"] {
        if let Some(name) = Name::read(text) {
            if names.push(name).is_err() {
                return 0;
            }
        }
    }
    names.as_slice().len()
}

#[test]
fn lists_take_what_is_pushed(rt: HostRuntime) {
    let alloc = rt.alloc();
    assert_eq!(rt;
        (a_text(alloc), two_rows(alloc), two_names(alloc)),
        (5, (2, 9), 2)
    );
}

/// Whether each of these may be a table's name.
fn are_names() -> [bool; 4] {
    [
        TableName::read("t_1").is_some(),
        TableName::read("1t").is_some(),
        TableName::read("").is_some(),
        TableName::read("abcdefghijklmnopqrstuvwxyzabcde").is_some(),
    ]
}

#[test]
fn names_of_tables(rt: HostRuntime) {
    assert_eq!(rt; are_names(), [true, false, false, false]);
}
