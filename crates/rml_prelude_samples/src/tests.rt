//! The prelude's text, and the tree that it has.

use rml_base::{Memory, Names};
use rml_prelude::prelude;
use rml_stages::read_text;
use rml_syntax::Text;
use std::alloc::{AllocError, Global};
use std::test::Fail;

/// The text of the prelude.
const PRELUDE: &str = "module rml:
  datatype bool = false | true
  datatype 'a option = NONE | SOME of 'a
  relation bool_and: (bool, bool) => bool
  relation bool_or: (bool, bool) => bool
  relation bool_not: bool => bool
  relation list_append: ('a list, 'a list) => 'a list
  relation list_reverse: 'a list => 'a list
  relation list_length: 'a list => int
  relation list_member: ('a, 'a list) => bool
  relation list_nth: ('a list, int) => 'a
  relation list_delete: ('a list, int) => 'a list
end
relation bool_and =
  axiom bool_and(true, true) => true
  axiom bool_and(true, false) => false
  axiom bool_and(false, _) => false
end
relation bool_or =
  axiom bool_or(false, false) => false
  axiom bool_or(false, true) => true
  axiom bool_or(true, _) => true
end
relation bool_not =
  axiom bool_not(false) => true
  axiom bool_not(true) => false
end
relation list_append =
  axiom list_append([], y) => y
  rule list_append(r, y) => z
       --
       list_append(x :: r, y) => x :: z
end
relation list_turn: ('a list, 'a list) => 'a list =
  axiom list_turn([], y) => y
  rule list_turn(r, x :: y) => z
       --
       list_turn(x :: r, y) => z
end
relation list_reverse =
  rule list_turn(x, []) => y
       --
       list_reverse(x) => y
end
relation list_length =
  axiom list_length([]) => 0
  rule list_length(r) => n & int_add(n, 1) => m
       --
       list_length(_ :: r) => m
end
relation list_member =
  axiom list_member(_, []) => false
  rule x = y
       --
       list_member(x, y :: _) => true
  rule not x = y & list_member(x, r) => b
       --
       list_member(x, y :: r) => b
end
relation list_nth =
  axiom list_nth(x :: _, 0) => x
  rule int_gt(n, 0) => true & int_sub(n, 1) => m & list_nth(r, m) => x
       --
       list_nth(_ :: r, n) => x
end
relation list_delete =
  axiom list_delete(_ :: r, 0) => r
  rule int_gt(n, 0) => true & int_sub(n, 1) => m & list_delete(r, m) => s
       --
       list_delete(x :: r, n) => x :: s
end
";

/// All that a tree holds but its places.
fn without_places(alloc: Global, tree: &Text) -> Result<String, AllocError> {
    let whole = format!(in alloc; "{tree:?}")?;
    let mut kept = String::new(alloc);
    for part in whole.split("Place {") {
        kept.push_str(match part.split_once('}') {
            Some((_, rest)) => rest,
            None => part,
        })?;
    }
    Ok(kept)
}

/// The tree that is made, and the one that is read.
fn both(alloc: Global) -> Result<(String, String), Memory> {
    let mut names = Names::new(alloc);
    let made = prelude(alloc, &mut names)?;
    let Ok(read) = read_text(alloc, 0, PRELUDE.as_bytes(), &mut names) else {
        return Err(Memory);
    };
    Ok((without_places(alloc, &made)?, without_places(alloc, &read)?))
}

#[test]
fn the_tree_is_that_of_the_text(rt: HostRuntime) -> Result<(), Fail> {
    let (made, read) = both(rt.alloc())?;
    assert_eq!(rt; made.as_str(), read.as_str());
    Ok(())
}
