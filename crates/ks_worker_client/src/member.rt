//! A worker as a member of its group.

/// What a worker knows of itself (KIP-98: producer and epoch; KIP-447: generation).
#[derive(Clone, Copy, PartialEq, Eq)]
pub struct Member {
    /// 0 to 16.
    pub number: u8,
    /// The instance whose shelf it uses: 0 to 3.
    pub instance: u8,
    /// The epoch of its producer.
    pub epoch: u64,
    /// The generation of the group whose assignment it works by; 0 at its start and after a crash.
    pub generation: u64,
    /// Whether it is a member of the group, as far as it knows.
    pub is_member: bool,
    /// How many pairs each store of its tasks holds back.
    pub cache: u32,
}
