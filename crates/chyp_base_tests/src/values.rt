// Names, sorts, texts, verdicts, statuses and steps.
ghost use Rattle.std.specs.Prelude.{◌≡◌, ◌<◌, length};

use chyp_base::{Name, Sort, Sorts, Status, Steps, Text, Verdict};
use std::alloc::Global;
use std::marker::Brand;
use std::sync::ledger::{Blank, Ledger};
use std::test::Fail;

/// Whether a name has this text, and is shared as itself.
fn is_shared(name: &Name, text: &str) -> Result<bool, Fail> {
    let share = name.share()?;
    let same = share.as_str() == text && share == *name;
    // As a call, it takes one step of the proof.
    drop(share);
    Ok(same)
}

/// Whether a name is another one than that of this text.
fn differs(alloc: Global, name: &Name, text: &str) -> Result<bool, Fail> {
    let other = Name::new(alloc, text)?;
    let differs = *name != other;
    drop(other);
    Ok(differs)
}

/// Whether a name is `f` and not `g`, and is shared as itself.
fn is_f(alloc: Global, name: &Name) -> Result<bool, Fail> {
    Ok(is_shared(name, "f")? && differs(alloc, name, "g")?)
}

#[test]
fn names_are_shared_and_compared(rt: HostRuntime) -> Result<(), Fail> {
    let alloc = rt.alloc();
    let name = Name::new(alloc, "f")?;
    let good = is_f(alloc, &name);
    drop(name);
    assert!(rt; good?);
    Ok(())
}

/// The sort of the name `f`.
fn named(alloc: Global) -> Result<Sort, Fail> {
    Ok(Sort {
        name: Name::new(alloc, "f")?,
    })
}

/// Whether a sort is shared as itself.
fn is_shared_itself(sort: &Sort) -> Result<bool, Fail> {
    let share = sort.share()?;
    let same = share == *sort;
    drop(share);
    Ok(same)
}

/// Whether plain wires have another sort, without a name.
fn is_not_plain(alloc: Global, sort: &Sort) -> Result<bool, Fail> {
    let plain = Sort::plain(alloc)?;
    let differs = plain.name.as_str().is_empty() && *sort != plain;
    drop(plain);
    Ok(differs)
}

/// Whether a sort is shared as itself, and is not that of plain wires.
fn is_named(alloc: Global, sort: &Sort) -> Result<bool, Fail> {
    Ok(is_shared_itself(sort)? && is_not_plain(alloc, sort)?)
}

#[test]
fn sorts_are_shared_and_compared(rt: HostRuntime) -> Result<(), Fail> {
    let alloc = rt.alloc();
    let sort = named(alloc)?;
    let good = is_named(alloc, &sort);
    drop(sort);
    assert!(rt; good?);
    Ok(())
}

/// A sort with a name, and that of plain wires.
fn both(alloc: Global) -> Result<Sorts, Fail> {
    let mut both = Vec::new(alloc);
    both.push(named(alloc)?)?;
    both.push(Sort::plain(alloc)?)?;
    Ok(Sorts::from_vec(both))
}

/// Whether a list of sorts is shared as itself.
fn are_shared(sorts: &Sorts) -> Result<bool, Fail> {
    let again = sorts.share()?;
    let same = again == *sorts;
    drop(again);
    Ok(same)
}

/// A list of two sorts beside itself.
fn twice(sorts: &Sorts) -> Result<Sorts, Fail>
    requires { length sorts.now ≡ 2 }
{
    Ok(sorts.share()?.into_shared()?.beside(sorts)?)
}

/// Whether a list of two sorts beside itself is another one, of four.
fn are_four(sorts: &Sorts) -> Result<bool, Fail>
    requires { length sorts.now ≡ 2 }
{
    let twice = twice(sorts)?;
    let differ = twice != *sorts;
    let items = twice.into_vec()?;
    Ok(differ && items.len() == 4)
}

/// Whether a list has two sorts, is shared as itself, and joined with itself.
fn are_two(sorts: &Sorts) -> Result<bool, Fail> {
    if sorts.as_slice().len() != 2 {
        return Ok(false);
    }
    Ok(are_shared(sorts)? && are_four(sorts)?)
}

#[test]
fn lists_of_sorts_are_shared_and_joined(rt: HostRuntime) -> Result<(), Fail> {
    let sorts = both(rt.alloc())?;
    let good = are_two(&sorts);
    drop(sorts);
    assert!(rt; good?);
    Ok(())
}

/// Whether a text has these bytes, and gives them back.
fn gives(text: Text, bytes: &[u8]) -> bool {
    let held = text.as_slice() == bytes;
    let given = text.into_vec();
    held && given.as_slice() == bytes
}

#[test]
fn texts_give_back_their_bytes(rt: HostRuntime) -> Result<(), Fail> {
    let bytes = b"\xff\n".as_slice();
    let text = Text::from_vec(Vec::from_slice(rt.alloc(), bytes)?);
    assert!(rt; gives(text, bytes));
    Ok(())
}

/// Whether a verdict is copied as itself.
fn is_copied(verdict: &Verdict) -> Result<bool, Fail> {
    let copy = verdict.clone()?;
    let same = copy == *verdict;
    drop(copy);
    Ok(same)
}

/// Whether a verdict is not good, and names no token.
fn is_bad(verdict: &Verdict) -> bool {
    !verdict.is_good() && verdict.token().is_none()
}

/// Whether a verdict is copied as itself, is not good, and names no token.
fn is_bad_copied(verdict: &Verdict) -> Result<bool, Fail> {
    Ok(is_bad(verdict) && is_copied(verdict)?)
}

#[test]
fn a_clash_is_not_good(rt: HostRuntime) -> Result<(), Fail> {
    let clash = Verdict::Clash {
        name: Name::new(rt.alloc(), "f")?,
    };
    let good = is_bad_copied(&clash);
    drop(clash);
    assert!(rt; good?);
    Ok(())
}

#[test]
fn verdicts_are_good_or_not(rt: HostRuntime) {
    assert!(rt; Verdict::Accepted.is_good());
    assert!(rt; Verdict::Proved.is_good());
    assert_eq!(rt; Verdict::Unknown { token: 4 }.token(), Some(4));
    assert!(rt; is_bad(&Verdict::Unfinished));
    assert!(rt; is_bad(&Verdict::TooBig));
}

#[test]
fn statuses_have_numbers(rt: HostRuntime) {
    assert_eq!(rt; Status::Done.number(), 0);
    assert_eq!(rt; Status::NoMemory.number(), 8);
}

fn tick_twice<G: Ledger>(blank: Blank)
    requires name { blank.name ≡ G.name }
    requires parts { blank.parts ≡ G.parts }
    requires some { 0 < G.parts }
{
    let mut steps = Steps::<G>::new(blank);
    steps.tick();
    steps.tick();
}

#[test]
fn steps_are_counted(_: HostRuntime) {
    tick_twice::<Brand>(Blank::new(1));
}
