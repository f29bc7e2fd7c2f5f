// Who waits for room in a layer.
ghost use Rattle.std.specs.Prelude.{◌≡◌, ◌<◌, ◌≤◌, [], ◌∷◌, length, IfSome, IfNone};
ghost use Rattle.gm_model.specs.Flows.{is_listed, joined_once};

use arrayvec::ArrayVec;
use gc_base::PortNo;
use std::marker::Model;

/// How many ports a crossbar has at most.
const PORTS: usize = 8;

/// The ports that wait for room in a layer, first come first. A port stands there once.
#[derive(Drop)]
pub(crate) struct Waiting {
    ports: ArrayVec<u8, PORTS>,
}

impl Model for Waiting {
    ghost use Rattle.std.specs.Prelude.{ℕ, List};
    ghost use Rattle.obj_xbar.specs.Waiting.{AreOnce};

    ghost Value = { List ℕ };

    ghost view = { λ w. w.ports.items };

    ghost invariant = { λ w. AreOnce w.ports.items };
}

impl Waiting {
    /// Nobody waits.
    pub(crate) fn nobody() -> Waiting
        ensures { result ≡ [] }
    {
        Waiting {
            ports: ArrayVec::new(),
        }
    }

    /// How many ports wait.
    #[tactic(auto, using(crate::proofs::WaitingLemmas::at_most))]
    pub(crate) fn len(&self) -> usize
        ensures value { result ≡ length self.now }
        ensures most { result ≤ 8 }
    {
        self.ports.len()
    }

    /// Whether a port waits.
    #[tactic(auto, unfolding(gm_model::specs::Flows::is_listed))]
    fn holds(&self, port: PortNo) -> bool
        ensures { result ≡ is_listed port.0 self.now }
    {
        for waiting in self.ports.as_slice() {
            if *waiting == port.0 {
                return true;
            }
        }
        false
    }

    /// A port waits behind the others, if it didn't wait before.
    #[tactic(auto, using(crate::proofs::WaitingLemmas::joined_are_once, crate::proofs::WaitingLemmas::room_for_another))]
    pub(crate) fn join(&mut self, port: PortNo)
        requires { port.0 < 8 }
        ensures { self.new ≡ joined_once port.0 self.old }
    {
        if !self.holds(port) {
            self.ports.push(port.0);
        }
    }

    /// Takes out the port that came first, if one waits.
    #[tactic(auto, using(crate::proofs::WaitingLemmas::first_and_rest, crate::proofs::WaitingLemmas::rest_are_once))]
    pub(crate) fn take_first(&mut self) -> Option<PortNo>
        ensures some { IfSome result (λ p. self.old ≡ p.0 ∷ self.new) }
        ensures none { IfNone result (self.old ≡ []) }
        ensures nobody { IfNone result (self.new ≡ []) }
    {
        let port = self.ports.pop_at(0)?;
        Some(PortNo(port))
    }
}
