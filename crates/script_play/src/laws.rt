//! Laws of scripts that worlds play. Each is the contract of a function that does nothing.
ghost use Rattle.std.specs.Prelude.{◌≡◌, ◌<◌, ◌≤◌, ◌++◌, ℕ, ℤ, List, None, Some, All, length, slice_get};
ghost use Rattle.zone_minutes.specs.Window.{IsInWindow};
ghost use Rattle.launch_machine.specs.Clerk.{table_size};
ghost use Rattle.due_set.specs.Table.{Table};
ghost use Rattle.paxos_base.specs.declared.entry.Entry.{Entry};
ghost use Rattle.run_text.specs.Run.{Run};
ghost use Rattle.run_text.specs.Sound.{IsSoundRun};
ghost use Rattle.agreement.specs.Log.{IsLog};
ghost use Rattle.history.specs.Book.{Row, votes_in};
ghost use Rattle.history.specs.Legal.{IsLegal};
ghost use Rattle.script_semantics.specs.Script.{Obeys};
ghost use Rattle.script_semantics.specs.Settling.{Settles, Walks, coordinator};
ghost use Rattle.script_semantics.specs.Situation.{Situation};
ghost use Rattle.settling.specs.Quiet.{EndsQuietly};
ghost use Rattle.settling.specs.Rounds.{IsWithinBounds};
ghost use Rattle.script_text.specs.declared.command.Command.{Command};
ghost use Rattle.disk_model.specs.Images.{Image};
ghost use Rattle.disk_model.specs.MemDisk.{left_by, seen_of};
ghost use Rattle.disk_model.specs.declared.mem_disk.MemDisk.{MemDisk};
ghost use Rattle.replica_node.specs.Node.{disk_of};
ghost use Rattle.replica_node.specs.declared.node.Node.{Node};
ghost use Rattle.replica_store.specs.Files.{FilesStand};
ghost use Rattle.world_law.specs.Book.{IsLegalBook, StandsBehind, standing_behind};
ghost use Rattle.script_play.specs.Play.{AreMemNodesOf, HasRun, IsMemWorldAt, IsPlayable};
ghost use Rattle.world_rounds.specs.Bounds.{IsBookBounded};
ghost use Rattle.world_rounds.specs.World.{book_of};
ghost use Rattle.world_rounds.specs.declared.world.World.{World};

/// A world takes each command of a run that is read for it.
pub fn a_world_takes_each_command_that_is_read()
    ensures { (next : ℕ) (run : Run) → IsSoundRun next run → All (IsPlayable run.window run.members) run.commands }
{}

/// The book of a world that has played a run is legal, and no call is pending in it; and whichever rows stand behind it obey the
/// script.
pub fn a_played_run_obeys_its_script()
    ensures legal { (table : Table) (members : ℕ) (script : List Command) (world : World MemDisk) → HasRun table members script world
        → IsLegalBook table (book_of world) }
    ensures rest { (table : Table) (members : ℕ) (script : List Command) (world : World MemDisk) → HasRun table members script world
        → (book_of world).pending ≡ None }
    ensures obeys { (table : Table) (members : ℕ) (script : List Command) (world : World MemDisk) → HasRun table members script world
        → (rows : List Row) × StandsBehind table rows (book_of world) × IsLegal members table rows × Obeys members table script rows }
{}

/// The files of a replica's disk in memory, when a world has played a run, stand for what the replica keeps after the turns; and so
/// does whatever a stop would leave of that disk.
pub fn a_played_run_leaves_its_nodes()
    ensures files { (table : Table) (members : ℕ) (script : List Command) (world : World MemDisk)
        (run : HasRun table members script world) (nodes : List (Node MemDisk))
        → AreMemNodesOf table run.rows (book_of world) nodes → (who : ℕ) (node : Node MemDisk) → slice_get nodes who ≡ Some node
        → FilesStand (table_size table) ((standing_behind table run.rows (book_of world)).replicas who).kept (seen_of (disk_of node)) }
    ensures stops { (table : Table) (members : ℕ) (script : List Command) (world : World MemDisk)
        (run : HasRun table members script world) (nodes : List (Node MemDisk))
        → AreMemNodesOf table run.rows (book_of world) nodes → (who : ℕ) (node : Node MemDisk) (image : Image) → slice_get nodes who ≡ Some node
        → left_by (disk_of node) image → FilesStand (table_size table) ((standing_behind table run.rows (book_of world)).replicas who).kept image }
    ensures count { (table : Table) (members : ℕ) (script : List Command) (world : World MemDisk)
        (run : HasRun table members script world) (nodes : List (Node MemDisk))
        → AreMemNodesOf table run.rows (book_of world) nodes → length nodes ≡ members }
{}

/// A world keeps its book within the limits of the laws of legal books. So where it has settled, or walked, its turns end quietly, as
/// these laws say it: all have learned the whole log, and nothing is left to do at that instant.
pub fn a_world_that_settles_ends_quietly()
    ensures limits { (table : Table) (rows : List Row) (world : World MemDisk) (situation : Situation) → IsMemWorldAt table rows world situation
        → IsBookBounded (book_of world) → IsWithinBounds rows situation.standing.posted }
    ensures settles { (table : Table) (rows more : List Row) (situation after : Situation) (old new : World MemDisk) (at : ℤ) (log : List Entry)
        → IsMemWorldAt table rows old situation → IsMemWorldAt table (rows ++ more) new after → 0 < (book_of old).members
        → (book_of new).members ≡ (book_of old).members → IsBookBounded (book_of new) → IsInWindow table.window at
        → Settles (book_of old).members table at situation more after → IsLog (book_of old).members (votes_in (rows ++ more)) log
        → EndsQuietly (book_of old).members table (rows ++ more) (coordinator (book_of old).members situation) at after log }
    ensures walks { (table : Table) (rows more : List Row) (situation after : Situation) (old new : World MemDisk) (to : ℤ) (log : List Entry)
        → IsMemWorldAt table rows old situation → IsMemWorldAt table (rows ++ more) new after → 0 < (book_of old).members
        → (book_of new).members ≡ (book_of old).members → IsBookBounded (book_of new) → IsInWindow table.window to
        → Walks (book_of old).members table to situation more after → IsLog (book_of old).members (votes_in (rows ++ more)) log
        → EndsQuietly (book_of old).members table (rows ++ more) (coordinator (book_of old).members situation) to after log }
{}
