//! A world is taken apart, and put together again, without memory.
ghost use Rattle.std.specs.Prelude.{◌≡◌, List};
ghost use Rattle.history.specs.Book.{Row};
ghost use Rattle.due_set.specs.Table.{Table};
ghost use Rattle.script_semantics.specs.Situation.{Situation};
ghost use Rattle.world_steps.specs.Parts.{AreParts, ArePartsAt, HasListRoom};
ghost use Rattle.world_rounds.specs.Nodes.{AreNodesAndMails};
ghost use Rattle.world_rounds.specs.Parts.{IsRoomFor};
ghost use Rattle.world_rounds.specs.World.{IsWorld, IsWorldAt, book_of, cuts_of, latest_of, members_of};

use crate::rooms::{MemberRoom, PartsRoom};
use crate::world::World;
use disk_model::Disk;
use replica_node::Node;
use world_steps::{Bundle, MailState};

/// The parts of a world.
pub type Parts<D> = Bundle<Node<D>, MemberRoom<D>>;

impl<D: Disk> World<D> {
    /// Its parts: what it has, as it stands. It takes no memory.
    pub fn take_parts(self) -> Parts<D>
        requires world { (table : Table) × IsWorld D.view table self }
        ensures parts { (table : Table) (rows : List Row) (situation : Situation) → IsWorldAt D.view table rows self situation
            → ArePartsAt D.view table rows result situation }
        ensures book { result.book ≡ book_of self }
        ensures replicas { AreNodesAndMails (members_of self) result.nodes.items result.mail.members.items }
        ensures cuts { result.mail.cuts.items ≡ cuts_of self }
        ensures latest { result.mail.latest ≡ latest_of self }
        ensures lists { HasListRoom result }
        ensures room { IsRoomFor (book_of self).members result.room }
    {
        let World {
            alloc,
            book,
            mut members,
            cuts,
            latest,
            room,
        } = self;
        let (nodes, mails) = room.take(&mut members);
        Bundle {
            nodes,
            book,
            mail: MailState {
                members: mails,
                cuts,
                latest,
            },
            room: MemberRoom { alloc, members },
        }
    }

    /// A world of these parts. They are those of a world, as [`World::take_parts`] gives them: their lists have room for seven
    /// replicas, and the room for as many as the book has is the one that came with them. Each node's disk uses the area to which
    /// the bases of its replica in the book have led from an empty disk: one that was in format 1 has kept a base more. It takes
    /// no memory.
    pub fn from_parts(parts: Parts<D>) -> World<D>
        requires parts { (table : Table) × AreParts D.view table parts }
        requires lists { HasListRoom parts }
        requires room { IsRoomFor parts.book.members parts.room }
        ensures world { (table : Table) (rows : List Row) (situation : Situation) → ArePartsAt D.view table rows parts situation
            → IsWorldAt D.view table rows result situation }
        ensures book { book_of result ≡ parts.book }
        ensures replicas { AreNodesAndMails (members_of result) parts.nodes.items parts.mail.members.items }
        ensures cuts { cuts_of result ≡ parts.mail.cuts.items }
        ensures latest { latest_of result ≡ parts.mail.latest }
    {
        let Bundle {
            mut nodes,
            book,
            mail,
            room,
        } = parts;
        let MailState {
            members: mut mails,
            cuts,
            latest,
        } = mail;
        let alloc = room.alloc;
        let members = room.join(&mut nodes, &mut mails);
        World {
            alloc,
            book,
            members,
            cuts,
            latest,
            room: PartsRoom { nodes, mails },
        }
    }
}
