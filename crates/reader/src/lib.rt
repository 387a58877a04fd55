// Readers of systems and certificates (document 01, "Words" and "Turned back"): the words are read one after another, to what their
// heads say or to the first fault. `system::read_system`, `line::read_line`, `certificate::read_certificate` and
// `file::read_system_file` are the entries; `kept` tries other limits on what was read; crate `read_frame` reads what stands behind
// a head.
#![tactic(auto)]

pub mod certificate;
pub mod file;
pub mod kept;
pub mod line;
pub mod system;
