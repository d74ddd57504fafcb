//! Cases of the plan book, and of values.
use depot::{Grant, Plan, PlanBook};
use duty::{Duty, DutyRefusal, Outcome, Same};
use std::test::Fail;

#[test]
fn the_highest_plan_is_1_to_9999(rt: HostRuntime) {
    for (highest, made) in [(0, false), (1, true), (9_999, true), (10_000, false)] {
        assert_eq!(rt; PlanBook::new(highest).is_ok(), made);
    }
}

#[test]
fn plans_from_1_to_the_highest_come_into_force(rt: HostRuntime) -> Result<(), Fail> {
    let mut book = PlanBook::new(9)?;
    assert_eq!(rt; book.in_force(), Plan(0));
    assert_eq!(rt; book.take(&Plan(0)), Err(DutyRefusal::Unfit));
    assert_eq!(rt; book.in_force(), Plan(0));
    assert_eq!(rt; book.take(&Plan(1)), Ok(Outcome::Taken));
    assert_eq!(rt; book.in_force(), Plan(1));
    assert_eq!(rt; book.take(&Plan(9)), Ok(Outcome::Taken));
    assert_eq!(rt; book.take(&Plan(10)), Err(DutyRefusal::Unfit));
    assert_eq!(rt; book.in_force(), Plan(9));
    assert_eq!(rt; book.highest(), Plan(9));
    Ok(())
}

#[test]
fn values_are_the_same_when_their_numbers_are(rt: HostRuntime) {
    assert!(rt; Plan(3).same(&Plan(3)) && !Plan(3).same(&Plan(4)));
    let grant = Grant { bay: 1, amps: 2 };
    assert!(rt; grant.same(&Grant { bay: 1, amps: 2 }));
    assert!(rt; !grant.same(&Grant { bay: 2, amps: 1 }));
    assert!(rt; !grant.same(&Grant { bay: 1, amps: 3 }) && !grant.same(&Grant { bay: 0, amps: 2 }));
}

#[test]
fn values_print_as_their_numbers(rt: HostRuntime) -> Result<(), Fail> {
    let alloc = rt.alloc();
    let grant = Grant {
        bay: 7,
        amps: 1_000,
    };
    assert_eq!(rt; Plan(9_999).to_string(alloc)?.as_str(), "9999");
    assert_eq!(rt; grant.to_string(alloc)?.as_str(), "7/1000");
    Ok(())
}

#[test]
fn outcomes_have_their_numbers(rt: HostRuntime) {
    assert_eq!(rt; Outcome::Taken.number(), None);
    assert_eq!(rt; Outcome::Aside(15).number(), Some(15));
}
