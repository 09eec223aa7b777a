use flit_model::{Outcome, Work};
use flit_structure::Structure;
use flit_table::Pass;

/// How a worker ended: its Work, an outcome for each call of it, and its pass.
#[derive(Drop)]
pub struct End<S: Structure> {
    pub work: Work,
    pub outcomes: Vec<Outcome>,
    pub pass: Pass<S>,
}
