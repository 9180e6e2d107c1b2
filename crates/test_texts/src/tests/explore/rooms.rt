//! What no question says yet: clients of two mutexes. Their charts cover them, who locks both in another order can be stuck, and parties that do
//! the same are one.

use explore_client::equal::never_holds_equal;
use explore_complete::cover::{
    covers, covers_each, hold_first, opens_with_nothing, shares_no_role,
};
use explore_complete::twins::{are_twins, grouped, twin_of};
use explore_program::client::{Action, Client, Item};
use explore_program::condition::{Goal, Term};
use explore_program::program::{Planned, Program};
use explore_search::search::{Found, explore};
use explore_search::watch::Unwatched;
use model_events::event::Word;
use std::alloc::{AllocError, Global};
use std::test::Fail;
use sync_steps::steps::{Call, Object};

/// Has a party lock these mutexes in this order, and unlock them.
fn add_party(
    client: &mut Client,
    party: usize,
    first: usize,
    other: usize,
) -> Result<(), AllocError> {
    let steps = [
        (first, Call::Lock),
        (other, Call::Lock),
        (other, Call::Unlock),
        (first, Call::Unlock),
    ];
    for (object, call) in &steps {
        let number = client.program.calls.len();
        client.program.calls.push(Planned {
            party,
            object: *object,
            call: *call,
        })?;
        client.items.push(Item {
            party,
            action: Action::Call(number),
        })?;
    }
    Ok(())
}

/// Two parties; the first locks the first mutex first, and the second this one.
fn locking(
    alloc: Global,
    first: usize,
    other: usize,
    goal: Option<Goal>,
    terms: &[Term],
) -> Result<Client, AllocError> {
    let mut client = Client {
        program: Program {
            objects: [Object::Mutex, Object::Mutex].to_vec(alloc)?,
            names: b" one other".to_vec(alloc)?,
            parties: 2,
            calls: Vec::new(alloc),
            opening: Vec::new(alloc),
            closures: Vec::new(alloc),
            goal,
            terms: terms.to_vec(alloc)?,
            roles: Vec::new(alloc),
        },
        names: Vec::new(alloc),
        firsts: Vec::new(alloc),
        items: Vec::new(alloc),
        expected: Vec::new(alloc),
    };
    add_party(&mut client, 0, 0, 1)?;
    add_party(&mut client, 1, first, other)?;
    Ok(client)
}

fn searched(alloc: Global, client: &Client) -> Result<Found, Fail> {
    match explore(alloc, client, 1000, &mut Unwatched) {
        Ok(found) => Ok(found),
        Err(_) => Err("the search is at fault")?,
    }
}

/// In how many ways all can end, as a chart shows that covers the client.
fn ends_of(alloc: Global, first: usize, other: usize) -> Result<usize, Fail> {
    let client = locking(alloc, first, other, None, &[])?;
    let found = searched(alloc, &client)?;
    match &found.chart {
        Some(ranked) if covers(&client, &ranked.chart) && hold_first(&client, &ranked.chart) => {
            Ok(found.ends.len())
        }
        _ => Err("it is not covered")?,
    }
}

#[test]
fn charts_cover_clients_of_two_objects(rt: HostRuntime) -> Result<(), Fail> {
    assert_eq!(rt; ends_of(rt.alloc(), 0, 1)?, 1);
    assert_eq!(rt; ends_of(rt.alloc(), 1, 0)?, 2);
    Ok(())
}

/// Whether some party can come to be stuck.
fn is_stuck(alloc: Global, first: usize, other: usize) -> Result<bool, Fail> {
    let client = locking(alloc, first, other, Some(Goal::Never), &[Term::Stuck])?;
    Ok(searched(alloc, &client)?.reached.is_some())
}

#[test]
fn who_locks_in_another_order_can_be_stuck(rt: HostRuntime) -> Result<(), Fail> {
    assert!(rt; !is_stuck(rt.alloc(), 0, 1)?);
    assert!(rt; is_stuck(rt.alloc(), 1, 0)?);
    Ok(())
}

/// Two parties of which it is asked whether they ever hold both.
fn racing(alloc: Global, first: usize, other: usize) -> Result<Client, AllocError> {
    let word = Term::Word {
        object: 0,
        word: Word::State,
        value: 7,
    };
    locking(alloc, first, other, Some(Goal::Never), &[word])
}

#[test]
fn parties_that_do_the_same_are_one(rt: HostRuntime) -> Result<(), Fail> {
    let alloc = rt.alloc();
    let client = racing(alloc, 0, 1)?;
    assert_eq!(rt; twin_of(&client, 0, 1), Some(4));
    assert!(rt; are_twins(&client, &[0, 0]));
    assert!(rt; shares_no_role(&client) && opens_with_nothing(&client));
    let found = searched(alloc, &client)?;
    assert_eq!(rt; found.roles, [0, 0].to_vec(alloc)?);
    let Some(ranked) = &found.chart else {
        return Err("there is no chart")?;
    };
    let group = grouped(alloc, &client, &found.roles)?;
    assert!(rt; !shares_no_role(&group));
    assert!(rt; covers(&group, &ranked.chart));
    assert!(rt; !covers_each(&group, &ranked.chart));
    assert!(rt; !covers(&client, &ranked.chart));
    assert!(rt; never_holds_equal(alloc, &client, &found.roles, &ranked.chart)?);
    Ok(())
}

#[test]
fn parties_that_lock_in_another_order_are_two(rt: HostRuntime) -> Result<(), Fail> {
    let alloc = rt.alloc();
    let client = racing(alloc, 1, 0)?;
    assert!(rt; twin_of(&client, 0, 1).is_none());
    assert!(rt; !are_twins(&client, &[0, 0]));
    let found = searched(alloc, &client)?;
    assert!(rt; found.roles.is_empty());
    let Some(ranked) = &found.chart else {
        return Err("there is no chart")?;
    };
    assert!(rt; covers_each(&client, &ranked.chart));
    assert!(rt; !never_holds_equal(alloc, &client, &[0, 0], &ranked.chart)?);
    Ok(())
}
