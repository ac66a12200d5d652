//! The list of optional instants, and its contracts.
ghost use Rattle.std.specs.Prelude.{◌≡◌, ◌<◌, Some, length, slice_get, slice_set, IfOk, IfSome, IfNone};
ghost use Rattle.min_tree.specs.Least.{HasNone, HasNoneAtMost, IsFirstAtMost, IsLeast};

use crate::nodes::{fill, first_below, is_at_most, node_at, raise, width_for};
use cron_io::OutOfMemory;
use std::alloc::Global;
use std::marker::Model;

/// A list of optional instants. Contracts see the list.
#[derive(Debug, Drop)]
pub struct LeastTree {
    // How many nodes come before the first leaf: a power of two that is at least the number of leaves.
    width: usize,
    // Node k is the lesser of nodes 2k and 2k+1; there is none past the end, and node 0 stands for nothing.
    nodes: Vec<Option<i64>>,
}

impl Model for LeastTree {
    ghost use Rattle.std.specs.Prelude.{List, Option, ℤ, drop};
    ghost use Rattle.min_tree.specs.Nodes.{IsTree};

    ghost Value = { List (Option ℤ) };

    ghost view = { λ tree. drop tree.width tree.nodes.items };

    ghost invariant = { λ tree. IsTree tree.width tree.nodes.items };
}

impl LeastTree {
    /// The list of these values.
    pub fn build(alloc: Global, values: &[Option<i64>]) -> Result<LeastTree, OutOfMemory>
        ensures { IfOk result (λ tree. tree ≡ values.now) }
    {
        let width = width_for(values.len());
        let mut nodes = Vec::with_capacity(alloc, width + values.len())?;
        nodes.resize(width, None)?;
        nodes.extend_from_slice(values)?;
        fill(&mut nodes, width);
        Ok(LeastTree { width, nodes })
    }

    /// An equal list.
    pub fn copy(&self) -> Result<LeastTree, OutOfMemory>
        ensures { IfOk result (λ copy. copy ≡ self.now) }
    {
        Ok(LeastTree {
            width: self.width,
            nodes: self.nodes.clone()?,
        })
    }

    /// How many values there are.
    pub fn len(&self) -> usize
        ensures { result ≡ length self.now }
    {
        self.nodes.len() - self.width
    }

    /// The value at a place.
    pub fn get(&self, index: usize) -> Option<i64>
        requires { index < length self.now }
        ensures { slice_get self.now index ≡ Some result }
    {
        self.nodes[self.width + index]
    }

    /// Puts another value at a place.
    pub fn set(&mut self, index: usize, value: Option<i64>)
        requires { index < length self.old }
        ensures { self.new ≡ slice_set self.old index value }
    {
        let leaf = self.width + index;
        self.nodes[leaf] = value;
        raise(&mut self.nodes, self.width, leaf / 2);
    }

    /// The least instant, where there is one.
    pub fn least(&self) -> Option<i64>
        ensures found { IfSome result (IsLeast self.now) }
        ensures none { IfNone result (HasNone self.now) }
    {
        node_at(&self.nodes, 1)
    }

    /// The first place, from `from` on, whose instant is at most the limit.
    pub fn first_at_most(&self, from: usize, limit: i64) -> Option<usize>
        ensures found { IfSome result (IsFirstAtMost self.now from limit) }
        ensures none { IfNone result (HasNoneAtMost self.now from limit) }
    {
        // Most calls find none, and the least alone tells it.
        if is_at_most(self.least(), limit) {
            self.climb(from, limit)
        } else {
            None
        }
    }

    // The same, by the nodes to the right of a leaf and above.
    fn climb(&self, from: usize, limit: i64) -> Option<usize>
        ensures found { IfSome result (IsFirstAtMost self.now from limit) }
        ensures none { IfNone result (HasNoneAtMost self.now from limit) }
    {
        let count = self.len();
        if from >= count {
            return None;
        }
        // A node, how many leaves it stands over, and the place of the first of them.
        let mut node = self.width + from;
        let mut span = 1;
        let mut start = from;
        while start < count {
            if is_at_most(node_at(&self.nodes, node), limit) {
                let leaf = first_below(&self.nodes, self.width, node, limit);
                return Some(leaf - self.width);
            }
            // The next node to the right; from a right one, the parent's.
            start += span;
            if node % 2 == 1 {
                node = node / 2 + 1;
                span *= 2;
            } else {
                node += 1;
            }
        }
        None
    }
}
