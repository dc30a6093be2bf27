//! What is planned.

ghost use Rattle.std.specs.Prelude.{◌≡◌, ◌↔◌, IfSome, IsNone, IsTrue, option_map};
ghost use Rattle.hex_plan.specs.Plans.{IsSearchAmong, IsWin};
ghost use Rattle.hex_plan.specs.Turns.{certificate_of};

use super::types::Plan;
use hex_cells::CellSet;
use win_cert::Cert;

/// A plan, with a certificate of a loss, and how many positions the solver entered for it.
#[derive(Drop)]
pub struct Planned {
    pub plan: Plan,
    /// Of a lost board a certificate that it is, if one was made: the other player wins whoever
    /// places first.
    pub loss: Option<Cert>,
    /// How many positions the solver entered in all, whatever it found; 0 if it was not asked.
    pub entered: u64,
}

impl Planned {
    /// Whether the plan is a win.
    pub fn is_win(&self) -> bool
        ensures { IsTrue result ↔ IsWin self.now.plan }
    {
        matches!(self.plan, Plan::Win { .. })
    }

    /// The cells among which is searched; `None` exactly if the plan is a win.
    pub fn allowed(&self) -> Option<CellSet>
        ensures win { IsNone result ↔ IsWin self.now.plan }
        ensures search { IfSome result (IsSearchAmong self.now.plan) }
    {
        match self.plan {
            Plan::Win { .. } => None,
            Plan::Search { allowed, .. } => Some(allowed),
        }
    }

    /// The certificate of a win, or beside a search that of a loss, if there is one.
    pub fn certificate(&self) -> Option<&Cert>
        ensures { option_map (λ cert. cert.now) result
            ≡ certificate_of self.now.plan self.now.loss }
    {
        match &self.plan {
            Plan::Win { cert, .. } => Some(cert),
            Plan::Search { .. } => self.loss.as_ref(),
        }
    }
}
