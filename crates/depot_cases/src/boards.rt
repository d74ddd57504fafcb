//! Cases of the board.
use depot::{Board, Grant, SettingsRefusal};
use duty::{Duty, DutyRefusal, Outcome};
use std::test::Fail;

/// The board's answer to a grant of so many amps to the bay.
fn give(board: &mut Board, bay: u32, amps: u32) -> Result<Outcome, DutyRefusal> {
    board.take(&Grant { bay, amps })
}

/// Whether the bays have exactly these amps.
fn has(board: &Board, amps: &[u32]) -> bool {
    board
        .bays()
        .iter()
        .map(|bay| bay.amps)
        .eq(amps.iter().copied())
}

#[test]
fn settings_out_of_range_are_refused(rt: HostRuntime) {
    let cases = [
        (0, 100, false),
        (1, 100, true),
        (64, 100, true),
        (65, 100, false),
        (4, 0, true),
        (4, 32_000, true),
        (4, 32_001, false),
    ];
    for (bays, feed, made) in cases {
        assert_eq!(rt; Board::new(bays, feed).is_ok(), made);
    }
    assert_eq!(rt; SettingsRefusal::OutOfRange.number(), 6);
}

#[test]
fn a_grant_up_to_the_feed_is_taken_and_one_past_it_set_aside(rt: HostRuntime) -> Result<(), Fail> {
    let mut board = Board::new(2, 100)?;
    assert_eq!(rt; give(&mut board, 0, 60), Ok(Outcome::Taken));
    assert_eq!(rt; give(&mut board, 1, 40), Ok(Outcome::Taken));
    assert_eq!(rt; give(&mut board, 1, 41), Ok(Outcome::Aside(15)));
    assert!(rt; has(&board, &[60, 40]));
    assert_eq!(rt; board.total(), 100);
    Ok(())
}

#[test]
fn a_full_board_takes_a_lower_grant(rt: HostRuntime) -> Result<(), Fail> {
    let mut board = Board::new(2, 100)?;
    assert_eq!(rt; give(&mut board, 0, 60), Ok(Outcome::Taken));
    assert_eq!(rt; give(&mut board, 1, 40), Ok(Outcome::Taken));
    assert_eq!(rt; give(&mut board, 0, 10), Ok(Outcome::Taken));
    assert!(rt; has(&board, &[10, 40]));
    assert_eq!(rt; give(&mut board, 1, 90), Ok(Outcome::Taken));
    assert!(rt; has(&board, &[10, 90]));
    Ok(())
}

#[test]
fn a_bay_may_be_given_what_it_has(rt: HostRuntime) -> Result<(), Fail> {
    let mut board = Board::new(2, 100)?;
    assert_eq!(rt; give(&mut board, 0, 100), Ok(Outcome::Taken));
    assert_eq!(rt; give(&mut board, 0, 100), Ok(Outcome::Taken));
    assert!(rt; has(&board, &[100, 0]));
    Ok(())
}

#[test]
fn a_grant_has_at_most_1000_amps(rt: HostRuntime) -> Result<(), Fail> {
    let mut board = Board::new(2, 32_000)?;
    for (amps, fits) in [(1_000, true), (1_001, false)] {
        assert_eq!(rt; board.fits(&Grant { bay: 0, amps }), fits);
    }
    assert_eq!(rt; give(&mut board, 0, 1_000), Ok(Outcome::Taken));
    assert_eq!(rt; give(&mut board, 1, 1_001), Err(DutyRefusal::Unfit));
    assert!(rt; has(&board, &[1_000, 0]));
    assert_eq!(rt; DutyRefusal::Unfit.number(), 4);
    Ok(())
}

#[test]
fn the_last_bay_exists_and_the_next_does_not(rt: HostRuntime) -> Result<(), Fail> {
    let mut board = Board::new(3, 100)?;
    assert_eq!(rt; give(&mut board, 2, 5), Ok(Outcome::Taken));
    assert_eq!(rt; give(&mut board, 3, 5), Err(DutyRefusal::Unfit));
    assert!(rt; has(&board, &[0, 0, 5]));
    Ok(())
}

#[test]
fn without_a_feed_only_0_amps_are_taken(rt: HostRuntime) -> Result<(), Fail> {
    let mut board = Board::new(1, 0)?;
    assert_eq!(rt; give(&mut board, 0, 1), Ok(Outcome::Aside(15)));
    assert_eq!(rt; give(&mut board, 0, 0), Ok(Outcome::Taken));
    assert!(rt; has(&board, &[0]));
    Ok(())
}

#[test]
fn a_board_of_64_bays_is_used_whole(rt: HostRuntime) -> Result<(), Fail> {
    let mut board = Board::new(64, 32_000)?;
    for bay in 0..32 {
        assert_eq!(rt; give(&mut board, bay, 1_000), Ok(Outcome::Taken));
    }
    assert_eq!(rt; give(&mut board, 63, 1), Ok(Outcome::Aside(15)));
    assert_eq!(rt; give(&mut board, 0, 999), Ok(Outcome::Taken));
    assert_eq!(rt; give(&mut board, 63, 1), Ok(Outcome::Taken));
    assert_eq!(rt; board.total(), 32_000);
    assert_eq!(rt; board.bays().len(), 64);
    Ok(())
}
