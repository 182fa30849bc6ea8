//! Places that go through the inbox, and vacant ones that are taken and given back, until there are none and one waits.
ghost use Rattle.std.specs.Prelude.{◌≡◌, [], ◌∷◌};
ghost use Rattle.place_lists.specs.Inboxes.{IsPassOf as IsInboxPassOf};
ghost use Rattle.place_lists.specs.Places.{IsPlace};
ghost use Rattle.place_lists.specs.Vacating.{IsPassOf, HasLast};

use place_lists::{Inbox, InboxPass, Vacancies, VacancyPass};
use std::process::Abort;
use std::sync::Wait;
use std::test::Fail;
use std::thread::{Threads, join};

// Pushes a place.
fn pushes<R: Abort + Wait>(rt: &R, inbox: &Inbox, pass: &mut InboxPass, place: u32)
    requires own { IsInboxPassOf inbox.now pass.old }
    requires place { IsPlace place }
    ensures { IsInboxPassOf inbox.now pass.new }
{
    assert!(rt; inbox.push(rt, pass, place).is_ok());
}

// Steals a number, or finds none.
fn steals<R: Abort + Wait>(rt: &R, inbox: &Inbox, pass: &mut InboxPass, number: Option<u32>)
    requires { IsInboxPassOf inbox.now pass.old }
    ensures { IsInboxPassOf inbox.now pass.new }
{
    assert_eq!(rt; inbox.steal(rt, pass), number);
}

#[test]
fn an_inbox_hands_out_in_order(rt: HostRuntime) -> Result<(), Fail> {
    let (inbox, mut pass) = Inbox::new(rt.alloc())?;
    let mut other = inbox.pass();
    pushes(&rt, &inbox, &mut pass, 3);
    pushes(&rt, &inbox, &mut other, 255);
    pushes(&rt, &inbox, &mut pass, 3);
    steals(&rt, &inbox, &mut other, Some(3));
    steals(&rt, &inbox, &mut pass, Some(255));
    steals(&rt, &inbox, &mut other, Some(3));
    steals(&rt, &inbox, &mut pass, None);
    Ok(())
}

// Takes so many places, which come in their order.
fn takes<R: Abort + Wait>(rt: &R, vacancies: &Vacancies, pass: &mut VacancyPass, count: u32)
    requires { IsPassOf vacancies.now pass.old }
    ensures { IsPassOf vacancies.now pass.new }
{
    for place in 0..count {
        assert_eq!(rt; vacancies.take(rt, pass), place);
    }
}

// Takes a place, which may have to be waited for, and gives it back.
fn returns<R: Wait>(rt: &R, vacancies: &Vacancies, pass: &mut VacancyPass) -> u32
    requires { IsPassOf vacancies.now pass.old }
    ensures { IsPassOf vacancies.now pass.new }
{
    let place = vacancies.take(rt, pass);
    vacancies.give(rt, pass, place);
    place
}

// Gives the last place back beside a thread that waits for one.
fn gives_beside<R: Threads + Wait + Sync>(
    rt: &R,
    vacancies: &Vacancies,
    mut pass: VacancyPass,
    mut other: VacancyPass,
    place: u32,
) -> u32
    requires own { IsPassOf vacancies.now pass × IsPassOf vacancies.now other }
    requires last { HasLast place pass.out }
{
    let ((), taken) = join(
        rt,
        move || -> ()
            requires { IsPassOf vacancies.now pass × HasLast place pass.out }
        { vacancies.give(rt, &mut pass, place) },
        move || -> u32
            requires { IsPassOf vacancies.now other }
        { returns(rt, vacancies, &mut other) },
    );
    taken
}

#[test]
fn a_place_is_waited_for(rt: HostRuntime) -> Result<(), Fail> {
    let (vacancies, mut pass) = Vacancies::new(&rt, rt.alloc())?;
    let other = vacancies.split(&mut pass);
    takes(&rt, &vacancies, &mut pass, 255);
    let last = vacancies.take(&rt, &mut pass);
    assert_eq!(rt; last, 255);
    assert_eq!(rt; gives_beside(&rt, &vacancies, pass, other, last), 255);
    Ok(())
}
