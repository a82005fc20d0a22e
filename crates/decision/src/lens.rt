// The two weighings, by which one pass serves minutes and steps.
ghost use Rattle.std.specs.Prelude.{◌≡◌, ◌≤◌};
ghost use Rattle.decision.specs.Lens.{weighing_of, live_by, weight_by};

use crate::request::Request;
use wac::{Cert, Table};

// By what certificates are seen: their minutes; or their steps, those that end at or after a minute.
// An enum and no trait with laws: the theorems speak of the lens as a value (`SettledFrom Minutes`).
#[derive(Clone, Copy)]
pub enum Lens {
    Minutes,
    Steps(u32),
}

#[tactic(auto, unfolding(rewriting::specs::Weighing::minutes, rewriting::specs::Weighing::steps))]
impl Lens {
    // What an entry weighs that no chain of at most 200 steps brings about. No From leads from usize to
    // u32, and a constant calls no TryFrom: `as`.
    pub const UNCOUNTED: u32 = Table::CHAIN_PLACES as u32 + 1;

    // No weight.
    pub fn none(self) -> u32
        ensures { result ≡ (weighing_of self).none }
    {
        match self {
            Lens::Minutes => 0,
            Lens::Steps(_) => Lens::UNCOUNTED,
        }
    }

    // The weight of the empty chain.
    pub fn whole(self) -> u32
        ensures { result ≡ (weighing_of self).whole }
    {
        match self {
            Lens::Minutes => Table::WITHOUT_END,
            Lens::Steps(_) => 0,
        }
    }

    // The better of two weights: the later minute, the fewer steps.
    #[tactic(auto, using(crate::proofs::LensLaws::later_better))]
    pub fn better(self, x: u32, y: u32) -> u32
        ensures { result ≡ (weighing_of self).best x y }
    {
        match self {
            Lens::Minutes => x.max(y),
            Lens::Steps(_) => x.min(y),
        }
    }

    // The weight of two parts of one chain: the earlier minute, the sum of the steps up to 201.
    pub fn joined(self, x: u32, y: u32) -> u32
        requires { (x ≤ (weighing_of self).cap) × (y ≤ (weighing_of self).cap) }
        ensures { result ≡ (weighing_of self).along x y }
    {
        match self {
            Lens::Minutes => x.min(y),
            Lens::Steps(_) => Lens::UNCOUNTED.min(x + y),
        }
    }

    // Does the certificate count?
    pub fn is_live(self, request: Request, cert: Cert) -> bool
        ensures { result ≡ live_by self request cert }
    {
        match self {
            Lens::Minutes => request.is_usable(cert),
            Lens::Steps(floor) => request.is_usable(cert) && floor <= cert.not_after,
        }
    }

    // What the certificate weighs.
    pub fn weight(self, cert: Cert) -> u32
        ensures { result ≡ weight_by self cert }
    {
        match self {
            Lens::Minutes => cert.not_after,
            Lens::Steps(_) => 1,
        }
    }
}
