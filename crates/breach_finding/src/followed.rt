use crate::Standing;
use crate::watching::UnderWay;
use std::collections::BTreeMap;

/// What goes along with a walk: what stands, the syncs that are under way, by seats, and when each gateway's view began.
#[derive(Drop)]
pub(crate) struct Followed {
    pub(crate) standing: Standing,
    pub(crate) unders: BTreeMap<u32, UnderWay>,
    pub(crate) views: BTreeMap<u32, u64>,
}
