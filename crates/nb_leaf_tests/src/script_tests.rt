// Scripts as values: read, put together and printed.
use nb_host::{Fault, Name};
use nb_model::Statement;
use nb_script::{Script, parse, print};
use std::alloc::Global;
use std::test::Fail;

/// The first session, the number of sessions and of turns, and the statements of session 1 after the first of all.
fn shape_of(script: &Script) -> (u32, u32, usize, usize) {
    (
        script.first_session(),
        script.session_count(),
        script.schedule().len(),
        script.statements(1).len(),
    )
}

/// Whether it begins by making a database of eight pages of text, without a word on how many pages are in memory.
fn creates_eight(script: &Script) -> bool {
    matches!(
        script.first(),
        Statement::CreateDb {
            raw: 8,
            cache: 64,
            ..
        }
    )
}

#[test]
fn print_parse(rt: HostRuntime) -> Result<(), Fail> {
    let bytes = b"1: create database 'm.db' page_size 1024 raw 8
schedule 1 2 1
2: write 6 'y'

# a comment
1: write 5 'x'
1: read 6";
    let script = parse(rt.alloc(), bytes)?;
    let text = print(rt.alloc(), &script)?;
    let wanted = b"1: create database 'm.db' page_size 1024 raw 8 cache 64
schedule 1 2 1
1: write 5 'x'
1: read 6
2: write 6 'y'
";
    assert_eq!(rt;
        (shape_of(&script), creates_eight(&script), text.as_slice()),
        ((1, 16, 3, 2), true, wanted.as_slice())
    );
    Ok(())
}

/// Adds a statement of another session, and one of the first.
fn add_two(script: &mut Script) -> Result<(), Fault> {
    script.add(2, Statement::BeginBackup)?;
    script.add(1, Statement::EndBackup)
}

#[test]
fn a_script_is_put_together(rt: HostRuntime) -> Result<(), Fail> {
    let name = Name::read("m.db").ok_or("no name")?;
    let first = Statement::OpenDb { name, cache: 64 };
    let mut script = Script::new(rt.alloc(), 1, first, Vec::new(rt.alloc()));
    add_two(&mut script)?;
    let text = print(rt.alloc(), &script)?;
    let wanted = b"1: open 'm.db' cache 64
1: alter database end backup
2: alter database begin backup
";
    assert_eq!(rt; text.as_slice(), wanted.as_slice());
    Ok(())
}

/// How many turns a script has, and the session of the first.
fn turns_of(alloc: Global, bytes: &[u8]) -> Result<(usize, Option<u32>), Fault> {
    let script = parse(alloc, bytes)?;
    Ok((script.schedule().len(), script.schedule().first().copied()))
}

#[test]
fn seeds(rt: HostRuntime) -> Result<(), Fail> {
    let bytes = b"1: create database 'a.db' page_size 1024 raw 8\nseed 7\n";
    assert_eq!(rt; turns_of(rt.alloc(), bytes)?, (4096, Some(15)));
    Ok(())
}
