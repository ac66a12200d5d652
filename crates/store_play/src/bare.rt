//! A disk that nothing is attached to.
use crate::attached::Attached;
use crate::command::Member;
use crate::running::Running;
use crate::seat::Seat;
use crate::text::Text;
use disk_model::{ArmedDisk, DiskFault, FileNo, MemDisk, read_file};
use due_set::JobTable;
use launch_machine::table_size;
use replica_node::{Node, NodeFault};
use replica_store::{Store, StoreFault};
use std::alloc::Global;

/// Whose disk it is: that of one of the replicas of a table.
#[derive(Clone, Copy)]
pub struct Owner<'a> {
    pub alloc: Global,
    pub table: &'a JobTable,
    pub member: Member,
}

/// A disk that nothing is attached to. It may have stopped.
#[derive(Drop)]
pub struct Bare<'a> {
    pub owner: Owner<'a>,
    pub disk: MemDisk,
}

impl<'a> Bare<'a> {
    /// An empty disk.
    pub fn new(owner: Owner<'a>) -> Bare<'a> {
        let disk = MemDisk::new(owner.alloc, Vec::new(owner.alloc));
        Bare { owner, disk }
    }

    /// Writes the bytes of the three files.
    pub fn put_files(&mut self, text: &mut Text) {
        for (words, file) in [
            ("  chooser ", FileNo::Chooser),
            ("  area 0 ", FileNo::AreaA),
            ("  area 1 ", FileNo::AreaB),
        ] {
            match read_file(self.owner.alloc, &mut self.disk, file) {
                Ok(bytes) => {
                    text.put_bytes(words, &bytes);
                    text.put("\n");
                }
                Err(fault) => return text.put_fault(fault_of(fault)),
            }
        }
    }

    /// Attaches a store, and writes what it keeps.
    pub fn attach(self, text: &mut Text) -> Seat<'a> {
        let Bare { owner, mut disk } = self;
        match Store::attach(owner.alloc, &mut disk, table_size(&owner.table)) {
            Ok((store, kept)) => {
                text.put_kept(&kept);
                Seat::Attached(Attached {
                    owner,
                    disk,
                    store,
                    kept,
                })
            }
            Err(fault) => {
                text.put_fault(NodeFault::from(fault));
                Seat::Bare(Bare { owner, disk })
            }
        }
    }

    /// Starts a node.
    pub fn start(self, text: &mut Text) -> Seat<'a> {
        let Bare { owner, disk } = self;
        let Member { me, members } = owner.member;
        match Node::recover(owner.alloc, me, members, owner.table, disk) {
            Ok(node) => {
                text.put("  runs\n");
                Seat::Running(Running { owner, node })
            }
            Err((disk, fault)) => {
                text.put_fault(fault);
                Seat::Bare(Bare { owner, disk })
            }
        }
    }
}

fn fault_of(fault: DiskFault) -> NodeFault {
    NodeFault::from(StoreFault::from(fault))
}
