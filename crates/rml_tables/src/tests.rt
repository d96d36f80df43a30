//! What no clause says: that these calls answer with memory at hand, at numbers and at pairs of numbers, and that a name takes no longer
//! the more there are.

use crate::laws::{first_declarations_stay, places_stand};
use crate::{Marks, NameSet, Table};
use std::test::Fail;

#[test]
fn names_keep_their_places(rt: HostRuntime) -> Result<(), Fail> {
    let mut names = NameSet::new(rt.alloc());
    for (name, place, added) in [
        (7u32, 0, true),
        (3, 1, true),
        (7, 0, false),
        (0, 2, true),
        (3, 1, false),
    ] {
        assert_eq!(rt; names.add(name)?, added);
        assert_eq!(rt; names.place(name), place);
    }
    assert_eq!(rt; names.has(0), true);
    assert_eq!(rt; names.has(5), false);
    assert_eq!(rt; names.place(5), 3);
    assert_eq!(rt; names.as_slice(), [7, 3, 0].as_slice());
    names.are_distinct();
    places_stand::<u32>();
    Ok(())
}

#[test]
fn each_of_some_names_is_added(rt: HostRuntime) -> Result<(), Fail> {
    let mut names = NameSet::new(rt.alloc());
    let mut more = NameSet::new(rt.alloc());
    for name in [7u32, 3] {
        names.add(name)?;
    }
    for name in [9u32, 7, 1] {
        more.add(name)?;
    }
    names.add_each(&more)?;
    assert_eq!(rt; names.as_slice(), [7, 3, 9, 1].as_slice());
    names.keep(2);
    assert_eq!(rt; names.as_slice(), [7, 3].as_slice());
    assert_eq!(rt; names.has(9), false);
    Ok(())
}

#[test]
fn the_first_declaration_stays(rt: HostRuntime) -> Result<(), Fail> {
    let mut table = Table::new(rt.alloc());
    for (name, value, added) in [
        ((0u32, 7u32), 'a', true),
        ((1, 7), 'b', true),
        ((0, 7), 'c', false),
        ((7, 0), 'd', true),
    ] {
        assert_eq!(rt; table.declare(name, value)?, added);
    }
    for (name, value, place) in [
        ((0, 7), Some('a'), 0),
        ((1, 7), Some('b'), 1),
        ((7, 0), Some('d'), 2),
        ((7, 1), None, 3),
    ] {
        assert_eq!(rt; table.value(name), value);
        assert_eq!(rt; table.place(name), place);
    }
    assert_eq!(rt; table.entry(2), Some(((7, 0), 'd')));
    assert_eq!(rt; table.entry(3), None);
    assert_eq!(rt; table.len(), 3);
    table.are_distinct();
    first_declarations_stay::<(u32, u32), char>();
    table.keep(1);
    assert_eq!(rt; table.value((1, 7)), None);
    Ok(())
}

#[test]
fn the_last_mark_goes_first(rt: HostRuntime) -> Result<(), Fail> {
    let mut marks = Marks::new(rt.alloc());
    marks.push(4)?;
    marks.push(9)?;
    assert_eq!(rt; marks.pop(), Some(9));
    marks.push(2)?;
    assert_eq!(rt; marks.pop(), Some(2));
    assert_eq!(rt; marks.pop(), Some(4));
    assert_eq!(rt; marks.pop(), None);
    marks.push(1)?;
    marks.clear();
    assert_eq!(rt; marks.pop(), None);
    Ok(())
}

/// One look at all earlier names for each name would be a hundred thousand million looks.
#[test]
fn many_names_take_no_longer_each(rt: HostRuntime) -> Result<(), Fail> {
    let mut names = NameSet::new(rt.alloc());
    let mut table = Table::new(rt.alloc());
    for name in 0..300_000u32 {
        names.add(name)?;
        table.declare((name, name), name)?;
    }
    for name in 0..300_000u32 {
        assert_eq!(rt; names.place(name), name as usize);
        assert_eq!(rt; table.value((name, name)), Some(name));
    }
    Ok(())
}
