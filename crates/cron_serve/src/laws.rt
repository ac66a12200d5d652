//! Laws of the program's ends. Each is the contract of a function that does nothing.
ghost use Rattle.std.specs.Prelude.{◌≡◌, ◌≢◌, ◌⊎◌, ◌≤◌, [], ℕ, ℤ, ◌<ℤ◌, List, Some, false, true, length, IsSomeAnd, Contains, slice_get};
ghost use Rattle.cron_io.specs.Faults.{Rose};
ghost use Rattle.cron_io.specs.Reading.{HasTakenBytes};
ghost use Rattle.cron_io.specs.Views.{SourceView, SinkView};
ghost use Rattle.cron_io.specs.Writing.{HasGained, HasGainedPrefix};
ghost use Rattle.disk_model.specs.Images.{Image};
ghost use Rattle.disk_model.specs.MemDisk.{left_by, seen_of};
ghost use Rattle.disk_model.specs.declared.mem_disk.MemDisk.{MemDisk};
ghost use Rattle.paxos_base.specs.declared.entry.Entry.{Entry};
ghost use Rattle.paxos_base.specs.declared.entry.Entry.TheVariants.{Noop};
ghost use Rattle.paxos_base.specs.declared.entry.Kind.{Kind};
ghost use Rattle.paxos_base.specs.declared.entry.Kind.TheVariants.{Launch};
ghost use Rattle.paxos_base.specs.declared.rows.JobRow.{JobRow};
ghost use Rattle.due_set.specs.Anacron.{IsPeriodOver};
ghost use Rattle.due_set.specs.Due.{IsRising};
ghost use Rattle.due_set.specs.Table.{Job, Table, job_of_version};
ghost use Rattle.due_set.specs.declared.job.JobKind.TheVariants.{Anacron};
ghost use Rattle.due_set.specs.declared.job.Period.{Period};
ghost use Rattle.cluster_sched.specs.declared.row.SchedRow.{SchedRow};
ghost use Rattle.agreement.specs.Transition.{identity_of};
ghost use Rattle.launch_safety.specs.Fits.{HasStart, HasEnd, IsBacked, IsEffective, IsHeld, IsStartedUnder};
ghost use Rattle.launch_safety.specs.Launched.{IsCalledAt, IsWanted, LaunchesEachDue, OpensBy};
ghost use Rattle.launch_machine.specs.Clerk.{IsClerkOf, table_size};
ghost use Rattle.launch_machine.specs.Starts.{StartsOf};
ghost use Rattle.launch_machine.specs.Versions.{IsDueUnder};
ghost use Rattle.step_spec.specs.Step.{IsLaunchTable};
ghost use Rattle.replica_node.specs.Node.{disk_of, replica_of};
ghost use Rattle.replica_node.specs.declared.node.Node.{Node};
ghost use Rattle.run_outcome.specs.Whole.{HoldsEachDue};
ghost use Rattle.run_outcome.specs.Readings.{IsGraceLong, script_turns};
ghost use Rattle.launch_safety.specs.Readings.{AreTurnsBy};
ghost use Rattle.run_outcome.specs.Barred.{IsBarred};
ghost use Rattle.world_law.specs.Book.{BookState, standing_behind};
ghost use Rattle.replica_store.specs.Files.{FilesStand};
ghost use Rattle.run_text.specs.Run.{Run};
ghost use Rattle.run_text.specs.declared.refusal.Refusal.{Refusal};
ghost use Rattle.job_table.specs.Table.{IsTableOf};
ghost use Rattle.journal_text.specs.Summary.{IsBookSummary};
ghost use Rattle.generated_run.specs.Made.{made_run, made_text};
ghost use Rattle.audit_finding.specs.declared.finding.Fault.{Fault};
ghost use Rattle.audit_finding.specs.declared.finding.Finding.{Finding};
ghost use Rattle.audit_finding.specs.declared.finding.Finding.TheVariants.{Passes, Fails};
ghost use Rattle.cron_serve.specs.Audit.{HasRunToAudit, IsAudited, IsFoundOfInput, IsRefusedAuditInput, IsRefusedByAudit, audit_line, audit_status};
ghost use Rattle.cron_serve.specs.Complete.{Completes, EndsUndisturbed};
ghost use Rattle.cron_serve.specs.Ends.{Ends};
ghost use Rattle.run_input.specs.Input.{IsRunWithTable, IsTakenFrame};
ghost use Rattle.cron_serve.specs.Input.{IsRefusedInput, Suits};
ghost use Rattle.cron_serve.specs.Program.{EndsProgram};
ghost use Rattle.cron_serve.specs.Promise.{HasOnlyDue, ReportsInput};
ghost use Rattle.cron_serve.specs.Serve.{IsNoted, IsRefused, IsRunOf, IsTextOf, IsTextOfInput, LeavesNoRun, WritesSome, WritesText, refusal_note, status_note};
ghost use Rattle.program_options.specs.declared.words.Output.{Output};
ghost use Rattle.program_options.specs.declared.words.Request.{Request};
ghost use Rattle.cron_serve.specs.declared.run_end.RunEnd.{RunEnd};

/// **The report is promised.** If the program was asked for the report alone and ended with status 0, the input was read, it is a run with a
/// table, and the sink gained the report of its launches: each stands there once, each due instant, by the versions in force then, was
/// launched or given up, no other instant of a crontab's job is there, and if grace lasts as long as the window, or the script has no
/// command and no version is adopted, each was launched.
pub fn a_report_tells_of_each_launch()
    ensures { (source source' : SourceView) (sink sink' notes notes' : SinkView) (status : ℕ)
        → EndsProgram (Request.Text (Output.Report false false)) source source' sink sink' notes notes' status → status ≡ 0
        → ReportsInput source source' sink sink' }
{}

/// What the exit status of a program says that was asked for a text. 0: the text was written, whole. 2: the input is refused, for
/// what the note says, and nothing was written. 3: a read failed, and nothing was written. 4: a write failed, after a prefix of the text.
/// 5: memory ran out, before the text or after a prefix of it. There is no higher one.
pub fn a_status_tells_the_end()
    ensures whole { (output : Output) (source source' : SourceView) (sink sink' notes notes' : SinkView) (status : ℕ)
        → EndsProgram (Request.Text output) source source' sink sink' notes notes' status → status ≡ 0
        → (book : BookState) × (nodes : List (Node MemDisk)) × WritesText output source source' sink sink' book nodes }
    ensures refused { (output : Output) (source source' : SourceView) (sink sink' notes notes' : SinkView) (status : ℕ)
        → EndsProgram (Request.Text output) source source' sink sink' notes notes' status → status ≡ 2
        → (sink' ≡ sink) × (refusal : Refusal) × IsRefused output source source' refusal × IsNoted notes notes' (refusal_note refusal) }
    ensures read_fault { (output : Output) (source source' : SourceView) (sink sink' notes notes' : SinkView) (status : ℕ)
        → EndsProgram (Request.Text output) source source' sink sink' notes notes' status → status ≡ 3
        → (sink' ≡ sink) × Rose source.faults source'.faults }
    ensures write_fault { (output : Output) (source source' : SourceView) (sink sink' notes notes' : SinkView) (status : ℕ)
        → EndsProgram (Request.Text output) source source' sink sink' notes notes' status → status ≡ 4
        → (book : BookState) × (nodes : List (Node MemDisk)) × WritesSome output source source' sink sink' book nodes
        × Rose sink.faults sink'.faults }
    ensures memory { (output : Output) (source source' : SourceView) (sink sink' notes notes' : SinkView) (status : ℕ)
        → EndsProgram (Request.Text output) source source' sink sink' notes notes' status → status ≡ 5
        → (sink' ≡ sink) ⊎ ((book : BookState) × (nodes : List (Node MemDisk)) × WritesSome output source source' sink sink' book nodes) }
    ensures no_other { (output : Output) (source source' : SourceView) (sink sink' notes notes' : SinkView) (status : ℕ)
        → EndsProgram (Request.Text output) source source' sink sink' notes notes' status → status ≤ 5 }
    ensures note { (output : Output) (source source' : SourceView) (sink sink' notes notes' : SinkView) (status : ℕ)
        → EndsProgram (Request.Text output) source source' sink sink' notes notes' status → status ≢ 2 → IsNoted notes notes' (status_note status) }
{}

/// If the source showed its bytes and no read failed, they decide the exit status, unless memory ran out: it is 0 of an input that suits
/// the text that is asked for, if no write failed either, and 2 of any other.
pub fn the_bytes_decide_the_status()
    ensures text { (output : Output) (source source' : SourceView) (sink sink' notes notes' : SinkView) (status : ℕ) (bytes : List ℕ)
        → EndsProgram (Request.Text output) source source' sink sink' notes notes' status → source.left ≡ Some bytes → Suits output bytes
        → ¬ Rose source.faults source'.faults → ¬ Rose sink.faults sink'.faults → (status ≡ 0) ⊎ (status ≡ 5) }
    ensures refused { (output : Output) (source source' : SourceView) (sink sink' notes notes' : SinkView) (status : ℕ) (bytes : List ℕ)
        → EndsProgram (Request.Text output) source source' sink sink' notes notes' status → source.left ≡ Some bytes → (Suits output bytes → ⊥)
        → ¬ Rose source.faults source'.faults → (status ≡ 2) ⊎ (status ≡ 5) }
    ensures made { (seed : ℕ) (source source' : SourceView) (sink sink' notes notes' : SinkView) (status : ℕ)
        → EndsProgram (Request.Text (Output.Summary seed)) source source' sink sink' notes notes' status → ¬ Rose sink.faults sink'.faults
        → (status ≡ 0) ⊎ (status ≡ 5) }
{}

/// What the exit status of a program says that was asked for an audit. 0: what the input has behind its run is the report and the
/// journal of that run, and the line that says so was written, whole. 6: the report or the journal is at fault, and the line that says where
/// was written, whole. 2: the input is refused, for what the note says. 3: a read failed. 4: a write failed, after a prefix of the line. 5:
/// memory ran out. At 2, 3 and 5 nothing was written. There is no higher one.
pub fn a_status_tells_of_an_audit()
    ensures passes { (source source' : SourceView) (sink sink' notes notes' : SinkView) (status : ℕ)
        → EndsProgram Request.Audit source source' sink sink' notes notes' status → status ≡ 0
        → (book : BookState) × IsFoundOfInput source source' (Passes book) × HasGained sink sink' (audit_line (Passes book)) }
    ensures fails { (source source' : SourceView) (sink sink' notes notes' : SinkView) (status : ℕ)
        → EndsProgram Request.Audit source source' sink sink' notes notes' status → status ≡ 6
        → (line : ℕ) × (fault : Fault) × IsFoundOfInput source source' (Fails line fault) × HasGained sink sink' (audit_line (Fails line fault)) }
    ensures refused { (source source' : SourceView) (sink sink' notes notes' : SinkView) (status : ℕ)
        → EndsProgram Request.Audit source source' sink sink' notes notes' status → status ≡ 2
        → (sink' ≡ sink) × (refusal : Refusal) × IsRefusedByAudit source source' refusal × IsNoted notes notes' (refusal_note refusal) }
    ensures read_fault { (source source' : SourceView) (sink sink' notes notes' : SinkView) (status : ℕ)
        → EndsProgram Request.Audit source source' sink sink' notes notes' status → status ≡ 3
        → (sink' ≡ sink) × Rose source.faults source'.faults }
    ensures write_fault { (source source' : SourceView) (sink sink' notes notes' : SinkView) (status : ℕ)
        → EndsProgram Request.Audit source source' sink sink' notes notes' status → status ≡ 4
        → (finding : Finding) × IsFoundOfInput source source' finding × HasGainedPrefix sink sink' (audit_line finding)
        × Rose sink.faults sink'.faults }
    ensures memory { (source source' : SourceView) (sink sink' notes notes' : SinkView) (status : ℕ)
        → EndsProgram Request.Audit source source' sink sink' notes notes' status → status ≡ 5 → sink' ≡ sink }
    ensures no_other { (source source' : SourceView) (sink sink' notes notes' : SinkView) (status : ℕ)
        → EndsProgram Request.Audit source source' sink sink' notes notes' status → status ≤ 6 }
    ensures note { (source source' : SourceView) (sink sink' notes notes' : SinkView) (status : ℕ)
        → EndsProgram Request.Audit source source' sink sink' notes notes' status → status ≢ 2 → IsNoted notes notes' (status_note status) }
{}

/// If the source showed its bytes and no read failed, they decide how an audit ends, unless memory ran out: if something is found of them
/// and no write failed either, as it is of those whose run is taken, with its line and its status, and otherwise with status 2. Of bytes one
/// line at most is found; they are refused for one thing at most, and not where something is found of them.
pub fn the_bytes_decide_an_audit()
    ensures found { (source source' : SourceView) (sink sink' notes notes' : SinkView) (status : ℕ) (bytes : List ℕ) (finding : Finding)
        → EndsProgram Request.Audit source source' sink sink' notes notes' status → source.left ≡ Some bytes → IsAudited bytes finding
        → ¬ Rose source.faults source'.faults → ¬ Rose sink.faults sink'.faults
        → ((status ≡ audit_status finding) × HasGained sink sink' (audit_line finding)) ⊎ (status ≡ 5) }
    ensures judged { (source source' : SourceView) (sink sink' notes notes' : SinkView) (status : ℕ) (bytes : List ℕ)
        → EndsProgram Request.Audit source source' sink sink' notes notes' status → source.left ≡ Some bytes → HasRunToAudit bytes
        → ¬ Rose source.faults source'.faults → ¬ Rose sink.faults sink'.faults → (status ≡ 0) ⊎ (status ≡ 6) ⊎ (status ≡ 5) }
    ensures refused { (source source' : SourceView) (sink sink' notes notes' : SinkView) (status : ℕ) (bytes : List ℕ)
        → EndsProgram Request.Audit source source' sink sink' notes notes' status → source.left ≡ Some bytes
        → ((finding : Finding) → IsAudited bytes finding → ⊥) → ¬ Rose source.faults source'.faults → (status ≡ 2) ⊎ (status ≡ 5) }
    ensures one_line { (bytes : List ℕ) (a b : Finding) → IsAudited bytes a → IsAudited bytes b
        → (audit_status a ≡ audit_status b) × (audit_line a ≡ audit_line b) }
    ensures one_refusal { (bytes : List ℕ) (a b : Refusal) → IsRefusedAuditInput bytes a → IsRefusedAuditInput bytes b → a ≡ b }
    ensures not_both { (bytes : List ℕ) (finding : Finding) (refusal : Refusal) → IsAudited bytes finding → IsRefusedAuditInput bytes refusal → ⊥ }
{}

/// An input is taken as one run with one table at most, and as one frame at most; it is refused for one thing at most; and it isn't
/// both what is to be written of, and refused.
pub fn an_input_has_one_verdict()
    ensures one_run { (bytes : List ℕ) (run other : Run) (table table' : Table) → IsRunWithTable bytes run table
        → IsRunWithTable bytes other table' → (run ≡ other) × (table ≡ table') }
    ensures one_frame { (bytes : List ℕ) (run other : Run) → IsTakenFrame bytes run → IsTakenFrame bytes other → run ≡ other }
    ensures one_refusal { (output : Output) (bytes : List ℕ) (a b : Refusal) → IsRefusedInput output bytes a → IsRefusedInput output bytes b → a ≡ b }
    ensures not_both { (output : Output) (bytes : List ℕ) (refusal : Refusal) → Suits output bytes
        → IsRefusedInput output bytes refusal → ⊥ }
{}

/// Where the source tells its bytes, a refusal of the input that was read is the one of these bytes.
pub fn a_refusal_is_that_of_the_bytes()
    ensures { (output : Output) (old new : SourceView) (refusal : Refusal) (bytes : List ℕ) → IsRefused output old new refusal
        → old.left ≡ Some bytes → IsRefusedInput output bytes refusal }
{}

/// Of what the book of a run holds: no launch is held twice; each was started in the log, its instant had come when it was called, and its
/// kind goes by that clock, both by the version in force at the start; and what an end says that takes effect is held. Nothing in the log
/// is ignored but the no-ops.
pub fn a_run_holds_each_launch_once()
    ensures once { (bytes : List ℕ) (table : Table) (book : BookState) (nodes : List (Node MemDisk)) (a b : SchedRow) → IsRunOf bytes table book nodes
        → Contains book.ledger.held a → Contains book.ledger.held b → a.name.job ≡ b.name.job → a.name.at ≡ b.name.at → a ≡ b }
    ensures started { (bytes : List ℕ) (table : Table) (book : BookState) (nodes : List (Node MemDisk)) (run : IsRunOf bytes table book nodes) (row : SchedRow)
        → Contains book.ledger.held row → IsBacked table run.whole.log row }
    ensures ended { (bytes : List ℕ) (table : Table) (book : BookState) (nodes : List (Node MemDisk))
        (run : IsRunOf bytes table book nodes) (job : ℕ) (at : ℤ) (kind : Kind)
        → HasEnd table run.whole.log job at kind → IsHeld book.ledger.held job at kind }
    ensures effective { (bytes : List ℕ) (table : Table) (book : BookState) (nodes : List (Node MemDisk)) (run : IsRunOf bytes table book nodes) (entry : Entry)
        → Contains run.whole.log entry → entry ≢ Noop → IsEffective table run.whole.log entry }
{}

/// Of a run each due instant of each job, by the versions in force then, was started and has ended, and is held as its end says. One that
/// no clock reading of the script's turns has passed is held as launched, and was called at that very instant. Where grace lasts as long
/// as the window, each is held as launched.
pub fn a_run_ends_each_due_instant()
    ensures ended { (bytes : List ℕ) (table : Table) (book : BookState) (nodes : List (Node MemDisk)) (run : IsRunOf bytes table book nodes) (job : ℕ) (at : ℤ)
        → IsDueUnder table run.whole.adoptions job at → HasStart table run.whole.log job at × (kind : Kind) × HasEnd table run.whole.log job at kind
        × IsHeld book.ledger.held job at kind }
    ensures later { (bytes : List ℕ) (table : Table) (book : BookState) (nodes : List (Node MemDisk)) (run : IsRunOf bytes table book nodes) (job : ℕ) (at : ℤ)
        → IsDueUnder table run.whole.adoptions job at → AreTurnsBy at (script_turns run.whole.obeyed)
        → IsCalledAt book.ledger.held job at Launch at }
    ensures all { (bytes : List ℕ) (table : Table) (book : BookState) (nodes : List (Node MemDisk)) (run : IsRunOf bytes table book nodes) (job : ℕ) (at : ℤ)
        → IsGraceLong table → IsDueUnder table run.whole.adoptions job at → IsHeld book.ledger.held job at Launch }
{}

/// Of a run whose script has no command each due instant of a crontab's job is held as launched, and was called at that very instant.
/// Where no version is adopted, and a job of an anacrontab may open on a date at an instant, by the launches that were called before, it is
/// launched on that date and called at that instant. And then nothing else is held.
pub fn a_run_without_commands_launches_each_due_instant()
    ensures each { (bytes : List ℕ) (table : Table) (book : BookState) (nodes : List (Node MemDisk)) (run : IsRunOf bytes table book nodes) (job : ℕ) (at : ℤ)
        → run.run.commands ≡ [] → IsDueUnder table run.whole.adoptions job at → IsCalledAt book.ledger.held job at Launch at }
    ensures each_date { (bytes : List ℕ) (table : Table) (book : BookState) (nodes : List (Node MemDisk))
        (run : IsRunOf bytes table book nodes) (job : ℕ) (now date : ℤ)
        → run.run.commands ≡ [] → run.whole.adoptions ≡ [] → OpensBy table book.ledger.held job now date → IsCalledAt book.ledger.held job date Launch now }
    ensures no_other { (bytes : List ℕ) (table : Table) (book : BookState) (nodes : List (Node MemDisk)) (run : IsRunOf bytes table book nodes) (row : SchedRow)
        → run.run.commands ≡ [] → run.whole.adoptions ≡ [] → Contains book.ledger.held row → IsWanted table book.ledger.held row × (row.kind ≡ Launch) }
    ensures all { (bytes : List ℕ) (table : Table) (book : BookState) (nodes : List (Node MemDisk)) (run : IsRunOf bytes table book nodes)
        → run.run.commands ≡ [] → run.whole.adoptions ≡ [] → LaunchesEachDue table book.ledger.held }
{}

/// What a run leaves of its replicas: a node of each, by its number, which keeps what its replica keeps. What the files of its disk have
/// stands for that, and so does whatever a stop would leave of the disk. Each that runs at the end has a launch table, which is the
/// clerk's of the whole log.
pub fn a_run_leaves_its_nodes()
    ensures count { (bytes : List ℕ) (table : Table) (book : BookState) (nodes : List (Node MemDisk)) (run : IsRunOf bytes table book nodes)
        → length nodes ≡ run.run.members }
    ensures identity { (bytes : List ℕ) (table : Table) (book : BookState) (nodes : List (Node MemDisk)) (run : IsRunOf bytes table book nodes) (who : ℕ)
        (node : Node MemDisk) → slice_get nodes who ≡ Some node → (replica_of node).identity ≡ identity_of run.run.members who }
    ensures kept { (bytes : List ℕ) (table : Table) (book : BookState) (nodes : List (Node MemDisk)) (run : IsRunOf bytes table book nodes) (who : ℕ)
        (node : Node MemDisk) → slice_get nodes who ≡ Some node
        → (replica_of node).state.kept ≡ ((standing_behind table run.rows book).replicas who).kept }
    ensures files { (bytes : List ℕ) (table : Table) (book : BookState) (nodes : List (Node MemDisk)) (run : IsRunOf bytes table book nodes) (who : ℕ)
        (node : Node MemDisk) → slice_get nodes who ≡ Some node
        → FilesStand (table_size table) (replica_of node).state.kept (seen_of (disk_of node)) }
    ensures stops { (bytes : List ℕ) (table : Table) (book : BookState) (nodes : List (Node MemDisk)) (run : IsRunOf bytes table book nodes) (who : ℕ)
        (node : Node MemDisk) (image : Image) → slice_get nodes who ≡ Some node → left_by (disk_of node) image
        → FilesStand (table_size table) (replica_of node).state.kept image }
    ensures follows { (bytes : List ℕ) (table : Table) (book : BookState) (nodes : List (Node MemDisk)) (run : IsRunOf bytes table book nodes) (who : ℕ)
        (node : Node MemDisk) → slice_get nodes who ≡ Some node → (standing_behind table run.rows book).runs who ≡ true
        → (launch : List JobRow) × IsLaunchTable table (replica_of node).state launch × IsClerkOf table run.whole.log launch }
{}

/// Of a run each job's starts are of rising instants, or dates; and of two launches of a job of an anacrontab the later is a period
/// after the earlier, by the version in force at its start: so many days, or in a later month or year. Where no version is adopted, and
/// such a job may open on a date at an instant, by the launches that were called before, and no clock reading of the script's turns has
/// passed it, the job is launched on that date and called at that instant, unless at an earlier instant it was started on a later date,
/// or its launch on the date or a later one was called too late.
pub fn a_run_keeps_dates_apart()
    ensures opened { (bytes : List ℕ) (table : Table) (book : BookState) (nodes : List (Node MemDisk))
        (run : IsRunOf bytes table book nodes) (job : ℕ) (now date : ℤ)
        → run.whole.adoptions ≡ [] → OpensBy table book.ledger.held job now date → AreTurnsBy now (script_turns run.whole.obeyed)
        → IsCalledAt book.ledger.held job date Launch now ⊎ IsBarred run.run.members table run.rows job now date }
    ensures rise { (bytes : List ℕ) (table : Table) (book : BookState) (nodes : List (Node MemDisk)) (run : IsRunOf bytes table book nodes) (job : ℕ)
        → (dates : List ℤ) × StartsOf table run.whole.log job dates × IsRising dates }
    ensures apart { (bytes : List ℕ) (table : Table) (book : BookState) (nodes : List (Node MemDisk))
        (run : IsRunOf bytes table book nodes) (a b : SchedRow) (version : ℕ) (job : Job) (period : Period) (first last : ℕ)
        → Contains book.ledger.held a → Contains book.ledger.held b → a.name.job ≡ b.name.job
        → a.kind ≡ Launch → b.kind ≡ Launch → a.name.at <ℤ b.name.at
        → IsStartedUnder table run.whole.log version b.name.job b.name.at → job_of_version table version b.name.job ≡ Some job
        → job.kind ≡ Anacron period first last
        → IsPeriodOver period a.name.at b.name.at }
{}

/// Whatever is asked for, one text at most is to be written of bytes, where they leave this book and these nodes.
pub fn a_book_has_one_text()
    ensures { (output : Output) (bytes : List ℕ) (book : BookState) (nodes : List (Node MemDisk)) (a b : List ℕ)
        → IsTextOf output bytes book nodes a → IsTextOf output bytes book nodes b → a ≡ b }
{}

/// Where the summary of a made run was written, or a front of it until a write failed, the book and the nodes are what the
/// run of its seed leaves; each due instant was launched, and of crontabs nothing else was; and nothing was read. At status 0
/// the sink gained the summary of this book. And unless a write fails, the end is at status 0, or memory ran out.
pub fn a_made_run_is_played()
    ensures played { (seed : ℕ) (source source' : SourceView) (sink sink' : SinkView) (end : RunEnd)
        → Ends (Output.Summary seed) source source' sink sink' end → (end.status ≡ 0) ⊎ (end.status ≡ 4)
        → (table : Table) × (run : IsRunOf (made_text seed) table end.book end.nodes.items) × (run.run ≡ made_run seed) }
    ensures launched { (seed : ℕ) (source source' : SourceView) (sink sink' : SinkView) (end : RunEnd)
        → Ends (Output.Summary seed) source source' sink sink' end → (end.status ≡ 0) ⊎ (end.status ≡ 4)
        → (table : Table) × IsTableOf (made_run seed) table × HoldsEachDue table [] end.book.ledger.held × HasOnlyDue table [] end.book.ledger.held }
    ensures unread { (seed : ℕ) (source source' : SourceView) (sink sink' : SinkView) (end : RunEnd)
        → Ends (Output.Summary seed) source source' sink sink' end → (end.status ≡ 0) ⊎ (end.status ≡ 4) → source' ≡ source }
    ensures summary { (seed : ℕ) (source source' : SourceView) (sink sink' : SinkView) (end : RunEnd)
        → Ends (Output.Summary seed) source source' sink sink' end → end.status ≡ 0
        → (table : Table) × IsTableOf (made_run seed) table × (text : List ℕ) × IsBookSummary table seed end.book text × HasGained sink sink' text }
    ensures done { (seed : ℕ) (source source' : SourceView) (sink sink' : SinkView) (end : RunEnd)
        → Completes (Output.Summary seed) source source' sink sink' end → ¬ Rose sink.faults sink'.faults
        → (end.status ≡ 0) ⊎ (end.status ≡ 5) }
{}

/// At status 1, 2 and 3 nothing is written, and no run is left. So it is at 5 too, or else memory ran out within the text, and the book
/// and the nodes are those of the text.
pub fn an_early_end_leaves_nothing()
    ensures nothing { (output : Output) (source source' : SourceView) (sink sink' : SinkView) (end : RunEnd)
        → Ends output source source' sink sink' end → (end.status ≡ 1) ⊎ (end.status ≡ 2) ⊎ (end.status ≡ 3) → sink' ≡ sink }
    ensures no_run { (output : Output) (source source' : SourceView) (sink sink' : SinkView) (end : RunEnd)
        → Ends output source source' sink sink' end → (end.status ≡ 1) ⊎ (end.status ≡ 2) ⊎ (end.status ≡ 3)
        → LeavesNoRun end.book end.nodes.items }
    ensures memory { (output : Output) (source source' : SourceView) (sink sink' : SinkView) (end : RunEnd)
        → Ends output source source' sink sink' end → end.status ≡ 5
        → ((sink' ≡ sink) × LeavesNoRun end.book end.nodes.items) ⊎ WritesSome output source source' sink sink' end.book end.nodes.items }
    ensures empty { (book : BookState) (nodes : List (Node MemDisk)) → LeavesNoRun book nodes
        → (book.turns ≡ []) × (book.letters ≡ []) × (book.ledger.held ≡ []) × (book.ledger.late ≡ []) × (nodes ≡ []) }
{}

/// At status 4 and 5 a front of the text that was asked for was written at most, and nothing else.
pub fn a_late_end_leaves_a_front()
    ensures { (output : Output) (source source' : SourceView) (sink sink' : SinkView) (end : RunEnd)
        → Ends output source source' sink sink' end
        → (end.status ≡ 4) ⊎ (end.status ≡ 5) → (sink' ≡ sink) ⊎ ((text : List ℕ)
        × IsTextOfInput output source source' end.book end.nodes.items text × HasGainedPrefix sink sink' text) }
{}

/// Where a due list or a check is asked for, no run is played and none is left, whatever the end.
pub fn a_listing_leaves_no_run()
    ensures { (output : Output) (source source' : SourceView) (sink sink' : SinkView) (end : RunEnd) → (output ≡ Output.DueList) ⊎ (output ≡ Output.Check)
        → Ends output source source' sink sink' end → LeavesNoRun end.book end.nodes.items }
{}

/// At each end what is left of the source is a back part of what was, and no count of faults falls.
pub fn no_end_takes_back()
    ensures taken { (output : Output) (source source' : SourceView) (sink sink' : SinkView) (end : RunEnd)
        → Ends output source source' sink sink' end → HasTakenBytes source source' }
    ensures faults { (output : Output) (source source' : SourceView) (sink sink' : SinkView) (end : RunEnd)
        → Ends output source source' sink sink' end → (source.faults ≤ source'.faults) × (sink.faults ≤ sink'.faults) }
{}

/// A note is whole unless a write of the notes failed.
pub fn a_note_is_whole_unless_it_fails()
    ensures whole { (old new : SinkView) (text : List ℕ) → IsNoted old new text → ¬ Rose old.faults new.faults → HasGained old new text }
    ensures front { (old new : SinkView) (text : List ℕ) → IsNoted old new text → HasGainedPrefix old new text }
    ensures faults { (old new : SinkView) (text : List ℕ) → IsNoted old new text → old.faults ≤ new.faults }
{}

/// Where the source told its bytes, and no read and no write failed, they decide the end, unless memory ran out: an input that suits
/// what is asked for ends with its text, and any other is refused, for the one thing that it is refused for.
pub fn the_bytes_decide_the_end()
    ensures text { (output : Output) (source source' : SourceView) (sink sink' : SinkView) (end : RunEnd) (bytes : List ℕ)
        → EndsUndisturbed output source source' sink sink' end bytes → Suits output bytes → (end.status ≡ 0) ⊎ (end.status ≡ 5) }
    ensures refusal { (output : Output) (source source' : SourceView) (sink sink' : SinkView) (end : RunEnd) (bytes : List ℕ) (refusal : Refusal)
        → EndsUndisturbed output source source' sink sink' end bytes → IsRefusedInput output bytes refusal
        → (end.refusal ≡ Some refusal) ⊎ (end.status ≡ 5) }
    ensures others { (output : Output) (source source' : SourceView) (sink sink' : SinkView) (end : RunEnd) (bytes : List ℕ)
        → EndsUndisturbed output source source' sink sink' end bytes → (Suits output bytes → ⊥)
        → IsSomeAnd end.refusal (IsRefusedInput output bytes) ⊎ (end.status ≡ 5) }
{}
