// Memory domains: up to sixteen windows of addresses, upstream's mem_domain.rs. Every function takes any record literally,
// refuses by the names of docs/SPEC.md, 1, instead of requiring anything, and is promised to equal its definition in specs/: so an
// accepted window is stored as it was asked for, in the lowest free slot, and a refusal leaves the record as it was.
#![tactic(auto)]

ghost use Rattle.std.specs.Prelude.{◌≡◌, ◌&&◌, ◌<◌};
ghost use Rattle.mem_partition.specs.Partition.{is_active, meets as meets·spec, holds};
ghost use Rattle.mem_domain.specs.Scan.{found};
ghost use Rattle.mem_domain.specs.Domain.{slots, active_count, with_count, crossed, addable, free_at, window_at, has_free, contains_addr, no_partitions, stored, added, removed, gotten};

use answer::Code;
use mem_partition::MemPartition;

// Upstream's limit, and the same as a number of places.
pub const MAX_PARTITIONS: u32 = 16;

const SLOTS: usize = MAX_PARTITIONS as usize;

#[derive(Clone, Copy, Debug, PartialEq, Eq)]
pub struct MemDomain {
    pub partitions: [MemPartition; SLOTS],
    pub num_partitions: u32,
}

// Active, and overlapping a window from start up to, and without, end.
#[tactic(auto, unfolding(mem_partition::specs::Partition::meets))]
fn meets(p: MemPartition, start: u32, end: u32) -> bool
    ensures { result ≡ is_active p && meets·spec start end p }
{
    p.size != 0 && p.start < end && u64::from(start) < p.end_u64()
}

// Active, and the address is from the start on and before the end.
#[tactic(auto, unfolding(mem_partition::specs::Partition::holds))]
fn covers(p: MemPartition, addr: u32) -> bool
    ensures { result ≡ is_active p && holds p addr }
{
    p.size != 0 && p.start <= addr && u64::from(addr) < p.end_u64()
}

impl MemDomain {
    #[tactic(auto, unfolding(crate::specs::Domain::no_partitions))]
    pub fn init() -> MemDomain
        ensures { result ≡ no_partitions }
    {
        MemDomain {
            partitions: [MemPartition::default(); SLOTS],
            num_partitions: 0,
        }
    }

    // The slot that it stands in now.
    #[tactic(auto, unfolding(crate::specs::Domain::added, crate::specs::Domain::has_free, crate::specs::Domain::lowest_free, crate::specs::Domain::changed_at))]
    pub fn add_partition(&mut self, part: MemPartition) -> Result<u32, Code>
        ensures answer { result ≡ (added self.old part).answer }
        ensures domain { self.new ≡ (added self.old part).domain }
    {
        if !self.check_add_partition(part) {
            return Err(Code::Einval);
        }
        let Some(k) = self.first_free() else {
            return Err(Code::Enospc);
        };
        self.put(k, part);
        Ok(k as u32)
    }

    // The slot that it stood in.
    #[tactic(auto, unfolding(crate::specs::Domain::removed, crate::specs::Domain::has_window, crate::specs::Domain::lowest_window, crate::specs::Domain::changed_at))]
    pub fn remove_partition(&mut self, start: u32, size: u32) -> Result<u32, Code>
        ensures answer { result ≡ (removed self.old start size).answer }
        ensures domain { self.new ≡ (removed self.old start size).domain }
    {
        if size == 0 {
            return Err(Code::Enoent);
        }
        let Some(k) = self.first_window(start, size) else {
            return Err(Code::Enoent);
        };
        self.put(k, MemPartition::default());
        Ok(k as u32)
    }

    // The same slots with their count worked out anew: a domain that comes out of a table brings none.
    #[tactic(auto, unfolding(crate::specs::Domain::with_count))]
    pub fn counted(self) -> MemDomain
        ensures { result ≡ with_count self.partitions }
    {
        MemDomain {
            partitions: self.partitions,
            num_partitions: self.count_active(),
        }
    }

    pub fn num_partitions_get(self) -> u32
        ensures { result ≡ self.num_partitions }
    {
        self.num_partitions
    }

    #[tactic(auto, unfolding(crate::specs::Domain::gotten))]
    pub fn partition_get(self, idx: u32) -> Result<MemPartition, Code>
        ensures { result ≡ gotten self idx }
    {
        if idx >= MAX_PARTITIONS {
            return Err(Code::Einval);
        }
        let slot = self.partitions[idx as usize];
        if slot.size == 0 {
            return Err(Code::Enoent);
        }
        Ok(slot)
    }

    #[tactic(auto, unfolding(crate::specs::Domain::has_free))]
    pub fn has_free_slot(self) -> bool
        ensures { result ≡ has_free self.partitions }
    {
        self.first_free().is_some()
    }

    pub fn contains_addr(self, addr: u32) -> bool
        ensures { result ≡ contains_addr self.partitions addr }
    {
        self.partitions.iter().any(|p| covers(*p, addr))
    }

    // The window's end is worked wide and, once the window is valid, kept as narrow as its start: the cast loses nothing.
    #[tactic(auto, using(crate::proofs::Domain::clashes_crossed, mem_partition::proofs::Partition::valid_end), unfolding(crate::specs::Domain::addable))]
    fn check_add_partition(&self, part: MemPartition) -> bool
        ensures { result ≡ addable self.now.partitions part }
    {
        part.is_valid() && !self.crosses(part.start, part.end_u64() as u32)
    }

    fn crosses(&self, start: u32, end: u32) -> bool
        ensures { result ≡ crossed self.now.partitions start end }
    {
        self.partitions.iter().any(|p| meets(*p, start, end))
    }

    fn first_free(&self) -> Option<usize>
        ensures { result ≡ found (free_at self.now.partitions) slots }
    {
        self.partitions.iter().position(|p| p.size == 0)
    }

    fn first_window(&self, start: u32, size: u32) -> Option<usize>
        ensures { result ≡ found (window_at self.now.partitions start size) slots }
    {
        self.partitions
            .iter()
            .position(|p| p.start == start && p.size == size)
    }

    fn count_active(&self) -> u32
        ensures { result ≡ active_count self.now.partitions }
    {
        self.partitions.iter().filter(|p| p.size != 0).count() as u32
    }

    // Slot k becomes p, and the count is worked out anew, whatever it was.
    #[tactic(auto, unfolding(crate::specs::Domain::with_count))]
    fn put(&mut self, k: usize, p: MemPartition)
        requires { k < slots }
        ensures { self.new ≡ stored self.old.partitions k p }
    {
        self.partitions[k] = p;
        *self = self.counted();
    }
}
