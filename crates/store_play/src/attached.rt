//! A store on its disk.
ghost use Rattle.std.specs.Prelude.{◌≡◌, length, IfOk};
ghost use Rattle.launch_machine.specs.Clerk.{table_size};
ghost use Rattle.paxos_base.specs.Durable.{after_delta};
ghost use Rattle.store_format.specs.Order.{ChangeMayFollow};

use crate::bare::{Bare, Owner};
use crate::seat::Seat;
use crate::text::Text;
use disk_model::{ArmedDisk, MemDisk};
use launch_machine::table_size;
use paxos_base::{Delta, Durable};
use replica_node::NodeFault;
use replica_store::{Store, StoreFault};
use std::alloc::AllocError;
use std::marker::Model;
use store_format::may_follow;

/// A store that is attached to its disk, and what it keeps.
#[derive(Drop)]
pub struct Attached<'a> {
    pub owner: Owner<'a>,
    pub disk: MemDisk,
    pub store: Store,
    pub kept: Durable,
}

impl<'a> Model for Attached<'a> {
    ghost use Rattle.store_play.specs.Attached.{AttachedState, IsStoreAttached};

    ghost Value = { AttachedState };

    ghost view = { λ here. record { table = here.owner.table.now; disk = here.disk; store = here.store; kept = here.kept } };

    ghost invariant = { λ here. IsStoreAttached (record { table = here.owner.table.now; disk = here.disk; store = here.store; kept = here.kept }) };
}

// What is kept after a change.
fn kept_after(kept: &Durable, delta: &Delta) -> Result<Durable, AllocError>
    ensures { IfOk result (λ after. after ≡ after_delta delta.now kept.now) }
{
    let mut after = kept.clone()?;
    after.apply(delta.clone()?)?;
    Ok(after)
}

impl<'a> Attached<'a> {
    /// Arms the disk.
    pub fn arm(self, pass: u32, image: u32) -> Attached<'a> {
        let Attached {
            owner,
            mut disk,
            store,
            kept,
        } = self;
        disk.arm(pass, image);
        Attached {
            owner,
            disk,
            store,
            kept,
        }
    }

    /// Takes the arming back.
    pub fn disarm(self) -> Attached<'a> {
        let Attached {
            owner,
            mut disk,
            store,
            kept,
        } = self;
        disk.disarm();
        Attached {
            owner,
            disk,
            store,
            kept,
        }
    }

    /// Leaves the disk.
    pub fn stop(self) -> Bare<'a> {
        let Attached { owner, disk, .. } = self;
        Bare { owner, disk }
    }

    /// Writes what the store keeps.
    pub fn put_kept(&self, text: &mut Text) {
        text.put_kept(&self.kept);
    }

    /// Saves a change, where it may follow what is kept.
    pub fn save(self, delta: &Delta, text: &mut Text) -> Seat<'a> {
        if !may_follow(&self.kept, table_size(&self.owner.table), delta) {
            text.put_refusal("the change may not follow what is kept");
            return Seat::Attached(self);
        }
        match kept_after(&self.kept, delta) {
            Ok(after) => self.save_to(delta, after, text),
            Err(_) => {
                text.put_fault(NodeFault::OutOfMemory);
                Seat::Attached(self)
            }
        }
    }

    // Saves a change that may follow what is kept, which is that then.
    fn save_to(self, delta: &Delta, after: Durable, text: &mut Text) -> Seat<'a>
        requires follows { ChangeMayFollow (table_size self.table) self.kept delta.now }
        requires after { after ≡ after_delta delta.now self.kept }
    {
        let Attached {
            owner,
            mut disk,
            mut store,
            kept,
        } = self;
        match store.save(&mut disk, delta) {
            Ok(()) => {
                text.put("  saved\n");
                Seat::Attached(Attached {
                    owner,
                    disk,
                    store,
                    kept: after,
                })
            }
            Err(StoreFault::OutOfMemory) => {
                text.put_fault(NodeFault::OutOfMemory);
                Seat::Attached(Attached {
                    owner,
                    disk,
                    store,
                    kept,
                })
            }
            Err(fault) => {
                text.put_fault(NodeFault::from(fault));
                Seat::Bare(Bare { owner, disk })
            }
        }
    }
}
