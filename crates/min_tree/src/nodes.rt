//! The nodes of a tournament tree in one list: node k is the lesser of nodes 2k and 2k+1, and the
//! leaves begin at the width.
ghost use Rattle.std.specs.Prelude.{◌≡◌, ◌↔◌, ℕ, ◌+◌, ◌*◌, ◌<◌, ◌≤◌, ◌^◌, length, drop, IsTrue};
ghost use Rattle.min_tree.specs.Least.{IsAtMost};
ghost use Rattle.min_tree.specs.Nodes.{AreLesserBut, IsFirstBelow, IsLesser, IsOver, IsTree, IsWidthFor, node_at};

/// The least power of two that is enough for so many leaves.
pub fn width_for(count: usize) -> usize
    requires { count < 2 ^ 59 }
    ensures { IsWidthFor count result }
{
    let mut width = 1;
    while width < count {
        width *= 2;
    }
    width
}

/// The value of a node; there is none past the end.
pub fn node_at(nodes: &[Option<i64>], place: usize) -> Option<i64>
    ensures { result ≡ node_at nodes.now place }
{
    if place < nodes.len() {
        nodes[place]
    } else {
        None
    }
}

/// Whether the instant is there, and at most the limit.
pub fn is_at_most(value: Option<i64>, limit: i64) -> bool
    ensures { IsTrue result ↔ IsAtMost limit value }
{
    match value {
        Some(at) => at <= limit,
        None => false,
    }
}

// The lesser of two instants, where there are any.
fn lesser(left: Option<i64>, right: Option<i64>) -> Option<i64>
    ensures { IsLesser left right result }
{
    match (left, right) {
        (Some(left), Some(right)) => Some(left.min(right)),
        (left, None) => left,
        (None, right) => right,
    }
}

// The lesser of the two nodes below one.
fn lesser_below(nodes: &[Option<i64>], place: usize) -> Option<i64>
    requires { place < length nodes.now }
    ensures { IsLesser (node_at nodes.now (2 * place)) (node_at nodes.now (2 * place + 1)) result }
{
    lesser(node_at(nodes, 2 * place), node_at(nodes, 2 * place + 1))
}

/// Sets the inner nodes by the leaves.
pub fn fill(nodes: &mut [Option<i64>], width: usize)
    requires { width ≤ length nodes.old }
    ensures lesser { AreLesserBut width nodes.new 0 }
    ensures leaves { drop width nodes.new ≡ drop width nodes.old }
    ensures len { length nodes.new ≡ length nodes.old }
{
    let mut place = width;
    while place > 1 {
        place -= 1;
        nodes[place] = lesser_below(nodes, place);
    }
}

/// Sets the inner nodes again from one up, where a node below it has changed. It stops at the first
/// that stays as it is.
pub fn raise(nodes: &mut [Option<i64>], width: usize, from: usize)
    requires width { width ≤ length nodes.old }
    requires inner { from < width }
    requires others { AreLesserBut width nodes.old from }
    ensures lesser { AreLesserBut width nodes.new 0 }
    ensures leaves { drop width nodes.new ≡ drop width nodes.old }
    ensures len { length nodes.new ≡ length nodes.old }
{
    let mut place = from;
    while place > 0 {
        let least = lesser_below(nodes, place);
        if nodes[place] == least {
            return;
        }
        nodes[place] = least;
        place /= 2;
    }
}

/// The first leaf below a node whose instant is at most the limit. The node's own is: so is one of the two
/// below it, and the left one comes first.
pub fn first_below(nodes: &[Option<i64>], width: usize, top: usize, limit: i64) -> usize
    requires tree { IsTree width nodes.now }
    requires top { 0 < top }
    requires there { IsAtMost limit (node_at nodes.now top) }
    ensures { (span : ℕ) → IsOver width top span → IsFirstBelow nodes.now top span limit result }
{
    let mut node = top;
    while node < width {
        node *= 2;
        if !is_at_most(node_at(nodes, node), limit) {
            node += 1;
        }
    }
    node
}
