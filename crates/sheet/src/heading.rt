use crate::few::Few;
use crate::variable::Variable;

/// What a sheet says besides its rows: the variables and the tolerance.
#[derive(Clone, Copy, Debug, Default, PartialEq, Eq)]
pub struct Heading {
    pub(crate) variables: Few<Variable, 8>,
    pub(crate) tolerance: u32,
}
