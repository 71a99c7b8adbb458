//! The configuration that permits everything.
ghost use Rattle.std.specs.Prelude.{◌≡◌, IfOk};
ghost use Rattle.limit_apply.specs.Open.{open_config};

use crate::limits::Limits;
use ps_time::memory::Memory;
use std::alloc::Global;

const TEXT: &str =
    r#"{"applications":[{"apply":[{"limits":["always"],"require":"all"}],"classifier":"default"}],"classifiers":[{"identifiers":["everybody"],"name":"default"}],"identifiers":[{"name":"everybody","type":"always"}],"limits":[{"data":{"pass":true},"name":"always","type":"pass-fail"}],"priorities":{"default":1000}}"#;

impl Limits {
    /// The configuration that stands where there is none: everybody may do everything, with priorities up to
    /// 1,000.
    #[tactic(auto, using(crate::proofs::OpenLemmas::open_own))]
    pub fn open(alloc: Global) -> Result<Limits, Memory>
        ensures { IfOk result (λ made. made ≡ open_config) }
    {
        Limits::read_kept(alloc, TEXT)
    }
}
