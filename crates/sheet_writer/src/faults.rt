// Numbers 1 to 5 of a job's parts: the lists are looked at as numbers, record by record.
ghost use Rattle.std.specs.Prelude.{◌≡◌, [], ◌∷◌, map, ◌+◌, ◌*◌, ◌^◌, ◌<◌, ◌≤◌, length, drop, take};
ghost use Rattle.job_sheet.specs.Version.{most_size, Searchable};
ghost use Rattle.job_sheet.specs.Sheet.{max_bytes, max_sinks, first_fault, endpoint_fault, sink_fault, judged};
ghost use Rattle.sheet_writer.specs.Writer.{numbers_for, contents_of, version_for, whole, wholes, lengths_of, judged_parts};
ghost use Rattle.sheet_writer.specs.JobParts.{parts_in};
ghost use Rattle.sheet_writer.specs.Sizes.{few_records, Few, BehindList, sheet_length, lengths_good};
ghost use Rattle.sheet_writer.specs.Faults.{fault_from, faults_from};

use crate::listed::{block_from, position_from};
use crate::{BLOCK_NUMBERS, JobParts, Lengths, POSITION_NUMBERS, Records};
use job_sheet::faults::{block_fault, endpoint_fault, position_fault, sink_fault};
use job_sheet::{Endpoint, Judgement, MAX_BYTES, Sink, Sinks, Version, versions};
use room::Room;

// Whether so many numbers are a whole number of records.
fn whole(numbers: usize, size: usize) -> bool
    requires { 0 < size }
    ensures { result ≡ whole size numbers }
{
    numbers % size == 0
}

fn wholes(n: Lengths) -> bool
    ensures { result ≡ wholes n }
{
    whole(n.blocks, BLOCK_NUMBERS)
        && whole(n.conductors, POSITION_NUMBERS)
        && whole(n.clearances, POSITION_NUMBERS)
        && whole(n.terminals, POSITION_NUMBERS)
        && whole(n.reserved, POSITION_NUMBERS)
}

// Whether no list has more records than a sheet may have bytes: lengths are tested before they are multiplied.
#[tactic(auto, unfolding(crate::specs::Sizes::few_records))]
fn few_records(n: Lengths) -> bool
    ensures { result ≡ few_records n }
{
    n.blocks / BLOCK_NUMBERS <= MAX_BYTES
        && n.conductors / POSITION_NUMBERS <= MAX_BYTES
        && n.clearances / POSITION_NUMBERS <= MAX_BYTES
        && n.terminals / POSITION_NUMBERS <= MAX_BYTES
        && n.reserved / POSITION_NUMBERS <= MAX_BYTES
}

// The place right behind a list of so many records whose count stands at a place.
fn behind_list(place: usize, size: usize, count: usize) -> usize
    requires { (place < 2 ^ 32) × (size ≤ most_size) × (count ≤ max_bytes) }
    ensures { BehindList place size count result }
{
    place + 2 + size * count
}

// The place right behind the source and the sinks, of so many bytes each, that begin at a place.
fn behind_ends(place: usize, endpoint: usize, sink: usize, sinks: usize) -> usize
    requires { (place < 2 ^ 32) × (endpoint ≤ most_size) × (sink ≤ most_size) × (sinks ≤ max_sinks) }
    ensures { result ≡ place + endpoint + 1 + sink * sinks }
{
    place + endpoint + 1 + sink * sinks
}

// How many bytes a sheet of such lists has, in a version.
pub fn sheet_length(version: Version, n: Lengths) -> usize
    requires { Few n }
    ensures { result ≡ sheet_length version n }
{
    let position = versions::position_size(version.long);
    let block = versions::block_size(version.long);
    let lists = versions::lists_place(version);
    let conductors = behind_list(lists, block, n.blocks / BLOCK_NUMBERS);
    let clearances = behind_list(conductors, position, n.conductors / POSITION_NUMBERS);
    let terminals = behind_list(clearances, position, n.clearances / POSITION_NUMBERS);
    let reserved = behind_list(terminals, position, n.terminals / POSITION_NUMBERS);
    let source = behind_list(reserved, position, n.reserved / POSITION_NUMBERS);
    let endpoint = versions::endpoint_size(version.long);
    behind_ends(source, endpoint, versions::sink_size(version), n.sinks)
}

// Number 1 is due where this is false, in a version.
fn formed(version: Version, n: Lengths) -> bool
    ensures { result ≡ lengths_good version n }
{
    if job_sheet::MAX_SINKS < n.sinks {
        return false;
    }
    if !wholes(n) {
        return false;
    }
    if !few_records(n) {
        return false;
    }
    sheet_length(version, n) <= MAX_BYTES
}

// What is wrong with the record at a place of a list.
fn record_fault(room: Room, records: Records, numbers: &[u16], place: usize) -> Judgement
    requires { place + numbers_for records ≤ length numbers.now }
    ensures { result ≡ fault_from room records (drop place numbers.now) }
{
    match records {
        Records::Blocks => block_fault(room, block_from(numbers, place)),
        Records::Positions => position_fault(room, position_from(numbers, place, 0)),
    }
}

// The fault found so far or, where there is none, the first of a list's records.
fn first_fault(found: Judgement, room: Room, records: Records, numbers: &[u16]) -> Judgement
    ensures { result ≡ first_fault (found ∷ faults_from room records numbers.now) }
{
    let size = records.numbers();
    let mut fault = found;
    for k in 0..numbers.len() / size {
        if !fault.is_good() {
            return fault;
        }
        fault = record_fault(room, records, numbers, size * k);
    }
    fault
}

// The fault found so far or, where there is none, that of the source.
fn end_fault(found: Judgement, room: Room, end: Endpoint) -> Judgement
    ensures { result ≡ first_fault (found ∷ endpoint_fault room end ∷ []) }
{
    if !found.is_good() {
        return found;
    }
    endpoint_fault(room, end)
}

// The fault found so far or, where there is none, that of a sink.
fn one_sink_fault(found: Judgement, room: Room, sink: Sink) -> Judgement
    ensures { result ≡ first_fault (found ∷ sink_fault room sink ∷ []) }
{
    if !found.is_good() {
        return found;
    }
    sink_fault(room, sink)
}

// The fault found so far or, where there is none, the first of the sinks.
fn sinks_fault(found: Judgement, room: Room, sinks: Sinks) -> Judgement
    requires { sinks.count ≤ max_sinks }
    ensures { result ≡ first_fault (found ∷ map (sink_fault room) (take sinks.count sinks.ends)) }
{
    let mut fault = found;
    for sink in &sinks.ends[..sinks.count] {
        fault = one_sink_fault(fault, room, *sink);
    }
    fault
}

impl JobParts<'_> {
    // Numbers 2 and 3 at the ranges of a version, then 4 and 5 "record by record".
    fn judge_records(&self, version: Version) -> Judgement
        requires { (self.now.sinks.count ≤ max_sinks) × Searchable version.ranges }
        ensures { result ≡ judged version (contents_of (parts_in self.now)) }
    {
        let room = self.room;
        let lists = self.lists;
        let mut fault = version.ranges.head_fault(room, self.config, self.run);
        fault = first_fault(fault, room, Records::Blocks, lists.blocks);
        fault = first_fault(fault, room, Records::Positions, lists.conductors);
        fault = first_fault(fault, room, Records::Positions, lists.clearances);
        fault = first_fault(fault, room, Records::Positions, lists.terminals);
        fault = first_fault(fault, room, Records::Positions, lists.reserved);
        fault = end_fault(fault, room, self.source);
        sinks_fault(fault, room, self.sinks)
    }

    // How long the lists of a job are, and how many sinks there are.
    pub fn lengths_of(&self) -> Lengths
        ensures { result ≡ lengths_of self.now.lists.blocks.now self.now.lists.conductors.now self.now.lists.clearances.now self.now.lists.terminals.now self.now.lists.reserved.now self.now.sinks }
    {
        Lengths {
            blocks: self.lists.blocks.len(),
            conductors: self.lists.conductors.len(),
            clearances: self.lists.clearances.len(),
            terminals: self.lists.terminals.len(),
            reserved: self.lists.reserved.len(),
            sinks: self.sinks.count,
        }
    }

    // Number 1, then 2 to 5, in the version that is written.
    pub fn judge(&self, version: Version) -> Judgement
        requires { version ≡ version_for (contents_of (parts_in self.now)) }
        ensures { result ≡ judged_parts (parts_in self.now) }
    {
        if !formed(version, self.lengths_of()) {
            return Judgement::Sheet;
        }
        self.judge_records(version)
    }
}
