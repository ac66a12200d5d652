//! A list with its least one.
use min_tree::LeastTree;
use std::alloc::Global;
use std::test::Fail;

const VALUES: &[Option<i64>] = &[Some(5), None, Some(3), Some(-7), None, Some(9)];

// A copy of the list of the values, in which the third one has changed.
fn changed(alloc: Global) -> Result<LeastTree, Fail> {
    let mut tree = LeastTree::build(alloc, VALUES)?.copy()?;
    if tree.len() != 6 {
        return Err(Fail::from("not six values"));
    }
    tree.set(2, Some(-20));
    Ok(tree)
}

#[test]
fn a_change_reaches_each_answer(rt: HostRuntime) -> Result<(), Fail> {
    let tree = changed(rt.alloc())?;
    assert_eq!(rt; tree.least(), Some(-20));
    assert_eq!(rt; tree.first_at_most(0, 4), Some(2));
    assert_eq!(rt; tree.first_at_most(3, -8), None);
    Ok(())
}
