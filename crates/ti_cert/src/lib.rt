//! Certificates: judging one alone, comparing it with an entry, and the meaning of a yes for a terminal.
#![tactic(auto)]

mod agreement;
mod audits;
mod certificates;
mod certification;
mod clashes;
mod endings;
mod faults;
mod groups;
mod known;
pub mod laws;
mod limits;
mod places;
mod strings;
mod table;
mod tokens;
mod verification;

pub use agreement::agrees;
pub use audits::{audit, audit_from};
pub use certification::{CertifyFault, certify};
pub use clashes::{AllClashes, Clash, Facts, Resync, all_clashes, first_clash};
pub use faults::{AgreeFault, CertFault, CertFaultKind, VerifyFault};
pub use table::Table;
pub use ti_lines::{Drip, ReadFault, Reader};
pub use ti_rows::{Params, Row};
pub use verification::{Checked, verify, verify_from};
