ghost use Rattle.std.specs.Prelude.{◌≡◌, ◌+◌, ◌*◌, ◌^◌, ◌<◌, ◌≤◌, List, [], ◌∷◌, length, map};
ghost use Rattle.std.specs.Prelude.{replicate, take, slice_set, slice_index_or, All, IfOk};
ghost use Rattle.circular_buffer.specs.Buffer.{buffer};
ghost use Rattle.counter_core.specs.Working.{IsWorkFor, IsAsRoomy};
ghost use Rattle.replicated_log.specs.EntryLength.{entry_length, owner_at, command_at};
ghost use Rattle.replicated_log.specs.LogPart.{AreInRange};
ghost use Rattle.replicated_log.specs.Logs.{agreement_after};
ghost use Rattle.replicated_log.specs.Rings.{log_seen};

use crate::commands::Commands;
use crate::entries::{Entries, Entry};
use crate::log_lines::entry_length;
use crate::log_parts::LogPart;
use circular_buffer::HeapCircularBuffer;
use consensus_layer::{agree_at, heeded_at, liar_at, slot_length};
use counter_core::{Heard, HeardRegister, Overlay, Work};
use layer_laws::CounterNumbers;
use std::alloc::{AllocError, Global};
use sync_types::{FaultSet, NodeState, Reg};

/// A replicated log over a counter. The nodes own slots in turn; in each slot all correct nodes put
/// one and the same entry into their logs, which is what the owner commands if that is correct.
#[derive(Drop)]
pub struct Replica {
    nodes: u32,
    faults: u32,
    modulus: u64,
    depth: usize,
    values: u64,
    keep: usize,
    commands: Vec<Commands>,
    logs: Vec<HeapCircularBuffer<Entry>>,
    ghost quorum: { 3 * faults < nodes },
    ghost few: { nodes ≤ 256 },
    ghost room: { depth + 2 < 2 ^ 64 },
    ghost two: { (2 ≤ modulus) × (modulus ≤ 2 ^ 40) },
    ghost commands_of_nodes: { length commands.items ≡ nodes },
    ghost logs_of_nodes: { length logs.items ≡ nodes },
    ghost capacity: { All (λ log. log.capacity ≡ keep) logs.items },
    ghost range: { AreInRange values commands.items },
}

/// The owner of the slot to which an output belongs: of so many nodes, of which so many may be
/// faulty, one after the other.
pub fn owner_at(nodes: u32, faults: u32, output: u64) -> u32
    requires { 0 < nodes }
    ensures owner { result ≡ owner_at nodes faults output }
    ensures below { result < nodes }
{
    (output / entry_length(faults) % u64::from(nodes)) as u32
}

/// An empty log for each node, with room for so many entries.
fn empty_logs(
    alloc: Global,
    nodes: u32,
    keep: usize,
) -> Result<Vec<HeapCircularBuffer<Entry>>, AllocError>
    ensures { IfOk result (λ logs. logs.items ≡ replicate nodes (buffer [] keep)) }
{
    let mut logs = Vec::with_capacity(alloc, nodes as usize)?;
    for _ in 0..nodes {
        logs.push(HeapCircularBuffer::with_capacity(alloc, keep)?)?;
    }
    Ok(logs)
}

/// Puts an entry at the newest end of a node's log, which keeps its newest ones.
fn put(logs: &mut [HeapCircularBuffer<Entry>], node: u32, keep: usize, entry: Entry)
    requires node { node < length logs.old }
    requires keep { All (λ log. log.capacity ≡ keep) logs.old }
    ensures logs { map log_seen logs.new ≡ slice_set (map log_seen logs.old) node
        (take keep (entry ∷ slice_index_or (map log_seen logs.old) node [])) }
    ensures keep { All (λ log. log.capacity ≡ keep) logs.new }
{
    logs[node as usize].push_back(entry);
}

impl Replica {
    ghost use Rattle.std.specs.Prelude.{ℕ, slice_get, Some};
    ghost use Rattle.replicated_log.specs.LogPart.{IsForNumbers};
    ghost use Rattle.replicated_log.specs.Logs.{log_in, log_layer_over, log_layer_of};
    ghost use Rattle.replicated_log.specs.LogsSeen.{layer_seen, logs_seen};

    /// A log over a counter, as it is said of it: for as many nodes, each with a command below the
    /// values. All logs are empty.
    pub fn new(
        alloc: Global,
        numbers: &CounterNumbers,
        said: LogPart,
    ) -> Result<Replica, AllocError>
        requires said { IsForNumbers numbers.now said }
        ensures layer { IfOk result
            (λ replica. layer_seen replica ≡ log_layer_over numbers.now said) }
        ensures kept { IfOk result
            (λ replica. logs_seen replica ≡ replicate numbers.now.nodes []) }
    {
        numbers.facts();
        let nodes = numbers.nodes();
        let logs = empty_logs(alloc, nodes, said.keep)?;
        Ok(Replica {
            nodes,
            faults: numbers.faults(),
            modulus: numbers.modulus(),
            depth: numbers.depth(),
            values: said.values,
            keep: said.keep,
            commands: said.commands,
            logs,
        })
    }

    /// How many rounds an entry has.
    fn entry_length(&self) -> u64
        ensures { result ≡ entry_length self.now.faults }
    {
        entry_length(self.faults)
    }

    /// How many values there are: each command and each entry's value is below.
    pub fn values(&self) -> u64
        ensures { result ≡ (layer_seen self.now).values }
    {
        self.values
    }

    /// The owner of the slot to which an output belongs, as [`owner_at`] has it for the counter.
    pub fn owner(&self, o: u64) -> u32
        ensures owner { (nodes faults modulus depth values keep : ℕ) (commands : List (List ℕ))
            → layer_seen self.now ≡ log_layer_of nodes faults modulus depth values keep commands
            → result ≡ owner_at nodes faults o }
        ensures below { result < (layer_seen self.now).nodes }
    {
        owner_at(self.nodes, self.faults, o)
    }

    /// How many entries the log of node `v` has; `v` is below the number of nodes.
    pub fn entries(&self, v: u32) -> usize
        requires { v < (layer_seen self.now).nodes }
        ensures { result ≡ length (log_in (logs_seen self.now) v) }
    {
        self.logs[v as usize].len()
    }

    /// Entry `i` of the log of node `v`, the newest being 0. `v` is below the number of nodes, and
    /// `i` below that of the log's entries.
    pub fn entry(&self, v: u32, i: usize) -> Entry
        requires node { v < (layer_seen self.now).nodes }
        requires place { i < length (log_in (logs_seen self.now) v) }
        ensures { slice_get (log_in (logs_seen self.now) v) i ≡ Some result }
    {
        *self.logs[v as usize].nth_back(i).unwrap()
    }

    /// What a node commands at an output.
    fn command(&self, v: u32, o: u64) -> u64
        requires { v < self.now.nodes }
        ensures { result ≡ command_at self.now.nodes self.now.faults self.now.commands.items v o }
    {
        self.commands[v as usize].in_turn(o / (u64::from(self.nodes) * self.entry_length()))
    }

    /// The register of agreement of a node after a round.
    fn agreement(&self, node: u32, output: u64, heard: &Heard<'_>, work: &mut Work) -> Reg
        requires node { node < self.now.nodes }
        requires heard { length heard.now ≡ self.now.nodes }
        requires deep { All (λ s. self.now.depth + 2 ≤ length s.registers) heard.now }
        requires work { IsWorkFor self.now.nodes work.old }
        ensures register { result
            ≡ agreement_after self.now.nodes self.now.faults self.now.depth node output heard.now }
        ensures work { IsAsRoomy work.old work.new }
    {
        let turn = output % self.entry_length();
        if turn == 0 {
            let owner = owner_at(self.nodes, self.faults, output);
            let command = heard.state(owner).reg(self.depth + 1).a;
            Reg {
                a: Some(command.unwrap_or(0)),
                d: false,
            }
        } else {
            let turn = turn - 1;
            agree_at(
                heard,
                node,
                self.depth,
                turn % 3,
                (turn / 3) as u32,
                self.nodes,
                self.faults,
                work,
            )
        }
    }
}

impl Overlay for Replica {
    ghost use Rattle.std.proofs.Common.{refl};
    ghost use Rattle.counter_core.specs.Registers.{registers_hear};
    ghost use Rattle.replicated_log.specs.LogsSeen.{layer_seen, logs_seen};
    ghost use Rattle.replicated_log.specs.LogLaws.{log_keeps};

    type Kept = Entries;

    ghost layer = { layer_seen };

    ghost kept = { logs_seen };

    fn extra(&self) -> usize {
        2
    }

    fn begin(&mut self, _at: u64) {}

    fn relevant_liars(
        &self,
        node: u32,
        output: u64,
        heard: &Heard<'_>,
        faulty: &FaultSet,
    ) -> (usize, usize) {
        let turn = output % self.entry_length();
        if turn == 0 {
            liar_at(faulty, owner_at(self.nodes, self.faults, output))
        } else {
            let slot_turn = turn - 1;
            let values = HeardRegister::of(heard, self.depth, self.nodes, self.faults);
            heeded_at(&values, node, slot_turn % 3, (slot_turn / 3) as u32, faulty)
        }
    }

    fn advance(
        &mut self,
        node: u32,
        output: u64,
        heard: &Heard<'_>,
        work: &mut Work,
        out: &mut NodeState,
    ) {
        let agreement = self.agreement(node, output, heard, work);
        let command = self.command(node, (output + 1) % self.modulus);
        out.set_reg(self.depth, agreement);
        out.set_reg(
            self.depth + 1,
            Reg {
                a: Some(command),
                d: false,
            },
        );
        if output % self.entry_length() + 1 == self.entry_length() {
            let entry = Entry {
                slot: output - slot_length(self.faults),
                value: agreement.a.unwrap_or(0),
            };
            put(&mut self.logs, node, self.keep, entry);
        }
    }

    ghost keeps_range = { λ r.
        log_keeps r.nodes r.faults r.modulus r.depth r.values r.keep r.commands.items r.quorum
        r.commands_of_nodes r.range };

    ghost deaf = { λ r. registers_hear (layer_seen r) 1 refl };
}
