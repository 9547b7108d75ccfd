// What the backup state says of a few events, and of a few syncs.
use nb_cases::{Case, Event, Syncs, case_of, syncs_of};
use std::test::Fail;

#[test]
fn a_few_cases(rt: HostRuntime) -> Result<(), Fail> {
    assert_eq!(rt;
        [
            case_of(0, Event::Begin),
            case_of(1, Event::Begin),
            case_of(2, Event::MergeTurn),
            case_of(1, Event::Fixup),
            case_of(2, Event::Write),
            case_of(3, Event::Attach),
            case_of(3, Event::Apply),
        ],
        [
            Case::Go,
            Case::WrongState,
            Case::Go,
            Case::GoWithoutDelta,
            Case::BothOrMain,
            Case::Unfinished,
            Case::GoOrUnfinished,
        ]
    );
    Ok(())
}

fn syncs(slot: bool, table: bool, main: bool) -> Syncs {
    Syncs { slot, table, main }
}

#[test]
fn a_few_syncs(rt: HostRuntime) -> Result<(), Fail> {
    assert_eq!(rt;
        [
            syncs_of(1, false, true),
            syncs_of(1, false, false),
            syncs_of(2, false, true),
        ],
        [
            syncs(true, true, false),
            syncs(true, false, false),
            syncs(false, false, true),
        ]
    );
    Ok(())
}
