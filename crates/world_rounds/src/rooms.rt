//! Room for a world that is taken apart, and for one that is put together.
ghost use Rattle.std.specs.Prelude.{◌≡◌, ◌≤◌, [], ℕ, Some, length, slice_get, vec_capacity};

use crate::member::Member;
use cron_io::OutOfMemory;
use disk_model::Disk;
use replica_node::Node;
use std::alloc::Global;
use world_steps::MemberMail;

// A world has at most so many replicas.
const MOST_MEMBERS: usize = 7;

/// What is needed to put a world together again without memory: the list that had its replicas.
#[derive(Debug, Drop)]
pub struct MemberRoom<D> {
    pub(crate) alloc: Global,
    pub(crate) members: Vec<Member<D>>,
    ghost empty: { members.items ≡ [] },
}

/// What is needed to take a world apart without memory: lists for its nodes, and for what is set for them.
#[derive(Debug, Drop)]
pub(crate) struct PartsRoom<D> {
    pub(crate) nodes: Vec<Node<D>>,
    pub(crate) mails: Vec<MemberMail>,
    ghost no_nodes: { nodes.items ≡ [] },
    ghost no_mails: { mails.items ≡ [] },
    ghost nodes_fit: { 7 ≤ vec_capacity nodes },
    ghost mails_fit: { 7 ≤ vec_capacity mails },
}

impl<D: Disk> PartsRoom<D> {
    ghost use Rattle.world_rounds.specs.Nodes.{AreNodesAndMails};

    // Takes the memory for them.
    pub(crate) fn new(alloc: Global) -> Result<PartsRoom<D>, OutOfMemory> {
        Ok(PartsRoom {
            nodes: Vec::with_capacity(alloc, MOST_MEMBERS)?,
            mails: Vec::with_capacity(alloc, MOST_MEMBERS)?,
        })
    }

    // The nodes of at most so many members and what is set for them, in their order. Their list keeps its room.
    pub(crate) fn take(self, members: &mut Vec<Member<D>>) -> (Vec<Node<D>>, Vec<MemberMail>)
        ensures parts { length members.old.items ≤ 7 → AreNodesAndMails members.old.items result.0.items result.1.items }
        ensures nodes_fit { 7 ≤ vec_capacity result.0 }
        ensures mails_fit { 7 ≤ vec_capacity result.1 }
        ensures empty { members.new.items ≡ [] }
        ensures capacity { vec_capacity members.new ≡ vec_capacity members.old }
    {
        let PartsRoom {
            mut nodes,
            mut mails,
        } = self;
        'members: while !members.is_empty() {
            let member = members.remove(0);
            if nodes.len() < MOST_MEMBERS && mails.len() < MOST_MEMBERS {
                nodes.push_reserved(member.node);
                mails.push_reserved(member.mail);
            }
        }
        (nodes, mails)
    }
}

impl<D: Disk> MemberRoom<D> {
    ghost use Rattle.world_rounds.specs.Nodes.{AreNodesAndMails};
    ghost use Rattle.world_rounds.specs.Parts.{IsRoomFor};
    ghost use Rattle.world_rounds.specs.declared.member.Member.{Member as Seat};

    // The members of some nodes and of what is set for them, in their order. Their lists keep their room.
    pub(crate) fn join(
        self,
        nodes: &mut Vec<Node<D>>,
        mails: &mut Vec<MemberMail>,
    ) -> Vec<Member<D>>
        requires count { length mails.old.items ≡ length nodes.old.items }
        requires room { IsRoomFor (length nodes.old.items) self }
        ensures parts { AreNodesAndMails result.items nodes.old.items mails.old.items }
        ensures idle { (who : ℕ) (member : Seat D) → slice_get result.items who ≡ Some member → member.steps.items ≡ [] }
        ensures no_nodes { nodes.new.items ≡ [] }
        ensures no_mails { mails.new.items ≡ [] }
        ensures nodes_fit { vec_capacity nodes.new ≡ vec_capacity nodes.old }
        ensures mails_fit { vec_capacity mails.new ≡ vec_capacity mails.old }
    {
        let MemberRoom { alloc, mut members } = self;
        'nodes: while !nodes.is_empty() {
            let node = nodes.remove(0);
            let mail = mails.remove(0);
            members.push_reserved(Member {
                node,
                mail,
                steps: Vec::new(alloc),
                short: false,
            });
        }
        members
    }
}
