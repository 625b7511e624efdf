// A window of addresses by value, the partition of upstream's mem_domain.rs. Every function takes any record and any numbers literally, and is
// promised to equal its definition in specs/Partition: sums never wrap, and windows that only touch do not overlap (docs/SPEC.md, 3.1 to 3.7).
#![tactic(auto)]

ghost use Rattle.std.specs.Prelude.{◌≡◌};
ghost use Rattle.mem_partition.specs.Partition.{window_of, end_of, is_valid, overlap_of};

// A window of addresses and its rights. Size 0 marks a free slot; the default is a free one, all zero.
#[derive(Clone, Copy, Debug, Default, PartialEq, Eq, Hash)]
pub struct MemPartition {
    pub start: u32,
    pub size: u32,
    pub attr: u32,
}

impl MemPartition {
    // The end is worked wide, so that it never wraps.
    pub fn end_u64(self) -> u64
        ensures { result ≡ end_of self }
    {
        u64::from(self.start) + u64::from(self.size)
    }

    #[tactic(auto, unfolding(crate::specs::Partition::is_valid))]
    pub fn is_valid(self) -> bool
        ensures { result ≡ is_valid self }
    {
        self.size > 0 && self.end_u64() <= u64::from(u32::MAX)
    }

    #[tactic(auto, unfolding(crate::specs::Partition::meets, crate::specs::Partition::overlap_of))]
    pub fn overlaps(self, other: MemPartition) -> bool
        ensures { result ≡ overlap_of self other }
    {
        u64::from(other.start) < self.end_u64() && u64::from(self.start) < other.end_u64()
    }
}

// Upstream's windows of a bare start and size.
fn window(start: u32, size: u32) -> MemPartition
    ensures { result ≡ window_of start size }
{
    MemPartition {
        start,
        size,
        attr: 0,
    }
}

pub fn partition_valid_decide(start: u32, size: u32) -> bool
    ensures { result ≡ is_valid (window_of start size) }
{
    window(start, size).is_valid()
}

pub fn partitions_overlap_decide(
    part_start: u32,
    part_size: u32,
    existing_start: u32,
    existing_size: u32,
) -> bool
    ensures { result ≡ overlap_of (window_of part_start part_size) (window_of existing_start existing_size) }
{
    let part = window(part_start, part_size);
    let existing = window(existing_start, existing_size);
    part.overlaps(existing)
}
