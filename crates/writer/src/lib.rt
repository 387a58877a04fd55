// The writers of systems and certificates: values into lent words, or a refusal (document 01, "Turned back"). The entries, for
// every input, are `system::write_system` and `certificate::write_certificate`. The others are inside the product, and ask what
// their callers know: `output` writes what the solver leaves; `format` and `shape` say what the writers and the calls that load
// values have in common.
#![tactic(auto)]

pub mod certificate;
pub mod format;
pub mod output;
pub mod shape;
pub mod system;
mod values;
