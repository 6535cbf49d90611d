ghost use Rattle.std.specs.Prelude.{◌≡◌, IfOk, length};
ghost use Rattle.std.specs.List.{All};
ghost use Rattle.script_running.specs.Sights.{no_sight};

use crate::Sight;
use base::NoMemory;
use script_core::Script;
use std::alloc::Global;

/// What stays from one phase to the next.
#[derive(Drop)]
pub struct Progress<R> {
    /// By what each gateway sees.
    pub sights: Vec<Sight>,
    /// The report of the finished phases.
    pub report: R,
}

impl<R: Drop> Progress<R> {
    /// No gateway has synced, and nothing was done.
    pub fn new(alloc: Global, script: &Script, report: R) -> Result<Progress<R>, NoMemory>
        ensures each { IfOk result
            (λ progress. length progress.sights.items ≡ length script.now.gateways) }
        ensures unseen { IfOk result
            (λ progress. All (λ sight. sight ≡ no_sight) progress.sights.items) }
        ensures report { IfOk result (λ progress. progress.report ≡ report) }
    {
        let mut sights = Vec::new(alloc);
        for _ in 0..script.gateways.len() {
            sights.push(Sight::new())?;
        }
        Ok(Progress { sights, report })
    }
}
