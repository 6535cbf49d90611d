/// Who does a task: a worker for that task alone, or the worker of a gateway.
#[derive(Clone, Copy, Debug, PartialEq, Eq)]
pub enum Hand {
    /// The upload, compaction or cleaning at this place of the phase.
    Alone(u64),
    /// The gateway at this place.
    Gateway(u32),
}

impl Hand {
    ghost use Rattle.std.specs.Prelude.{◌≡◌, map};
    ghost use Rattle.std.specs.List.{list_any, range_with_len};
    ghost use Rattle.script_workers.specs.Hands.{same_hand, gateway_of};
    ghost use Rattle.script_workers.specs.declared.hand.Hand.TheVariants as hands;

    pub(crate) fn is(self, other: Hand) -> bool
        ensures { result ≡ same_hand self other }
    {
        match self {
            Hand::Alone(place) => other.is_alone_at(place),
            Hand::Gateway(gateway) => other.gateway() == Some(gateway),
        }
    }

    fn is_alone_at(self, place: u64) -> bool
        ensures { result ≡ same_hand (hands.Alone place) self }
    {
        match self {
            Hand::Alone(own) => own == place,
            Hand::Gateway(_) => false,
        }
    }

    /// Whether this is one of so many gateways.
    #[tactic(auto, using(crate::proofs::HandLists::none_alone_among, crate::proofs::HandLists::gateway_among))]
    pub(crate) fn is_among(self, gateways: u32) -> bool
        ensures { result
            ≡ list_any (same_hand self) (map hands.Gateway (range_with_len 0 gateways)) }
    {
        match self {
            Hand::Alone(_) => false,
            Hand::Gateway(gateway) => gateway < gateways,
        }
    }

    pub(crate) fn gateway(self) -> Option<u32>
        ensures { result ≡ gateway_of self }
    {
        match self {
            Hand::Alone(_) => None,
            Hand::Gateway(gateway) => Some(gateway),
        }
    }
}
